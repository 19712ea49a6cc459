// The first n of an array's tallies, lent as a slice to the call.
ghost use Rattle.std.specs.Prelude.{◌≡◌, ◌++◌, ◌≤◌, take, drop};
ghost use Rattle.particles.specs.Step.{step_law};
ghost use Rattle.tallies.specs.Tallies.{clear_refusal, clear_tallies, move_refusal, move_zones, move_tallies, pass_refusal, records_after, answers_after, pass_tallies};

use crate::slice;
use crate::tally::Tally;
use particles::Step;

// The array after a call, and 0 or the number that refused it.
#[derive(Drop)]
pub struct Held {
    pub refusal: u8,
    pub tallies: [Tally; 256],
}

pub fn answer(refusal: u8, tallies: [Tally; 256]) -> Held
    ensures { result ≡ record { refusal = refusal; tallies = tallies } }
{
    Held { refusal, tallies }
}

pub fn clear_array(particles: usize, zones: &[u64], ts: [Tally; 256], n: usize) -> Held
    requires { n ≤ 256 }
    ensures { (result.refusal ≡ clear_refusal particles zones.now n) × (result.tallies ≡ clear_tallies particles zones.now n (take n ts) ++ drop n ts) }
{
    let mut r = ts;
    let code = slice::clear(particles, zones, &mut r[..n]);
    answer(code, r)
}

pub fn move_array(
    particles: usize,
    p: usize,
    z: usize,
    zones: &mut [u64],
    ts: [Tally; 256],
    n: usize,
) -> Held
    requires { n ≤ 256 }
    ensures { (result.refusal ≡ move_refusal particles p z zones.old n) × (zones.new ≡ move_zones particles p z zones.old n) × (result.tallies ≡ move_tallies particles p z zones.old n (take n ts) ++ drop n ts) }
{
    let mut r = ts;
    let code = slice::move_particle(particles, p, z, zones, &mut r[..n]);
    answer(code, r)
}

pub fn pass_array(
    s: Step,
    xs: &mut [u64],
    out: &mut [u64],
    zones: &[u64],
    ts: [Tally; 256],
    n: usize,
) -> Held
    requires { n ≤ 256 }
    ensures { (result.refusal ≡ pass_refusal xs.old out.old zones.now n (take n ts)) × (xs.new ≡ records_after (step_law s) xs.old out.old zones.now n (take n ts)) × (out.new ≡ answers_after (step_law s) xs.old out.old zones.now n (take n ts)) × (result.tallies ≡ pass_tallies (step_law s) xs.old out.old zones.now n (take n ts) ++ drop n ts) }
{
    let mut r = ts;
    let code = slice::pass_by(s, xs, out, zones, &mut r[..n]);
    answer(code, r)
}
