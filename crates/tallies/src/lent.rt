// The same calls on tallies that are lent as words: at most 256 are read into an array, of which the slice calls are lent the first. What is refused leaves every lent list.
ghost use Rattle.std.specs.Prelude.{◌≡◌, cond, ◌&&◌, ◌*◌, ◌≤◌, eqb, length};
ghost use Rattle.one_record.specs.Judged.{failure_law};
ghost use Rattle.one_record.specs.RecordLaw.{record_law};
ghost use Rattle.particles.specs.Step.{step_law};
ghost use Rattle.tallies.specs.Zones.{zones_fit, move_fits};
ghost use Rattle.tallies.specs.Tallies.{clear_refusal, clear_tallies, move_refusal, move_zones, move_tallies, pass_refusal, pass_goes, records_after, answers_after, pass_tallies};
ghost use Rattle.tallies.specs.Words.{fields, tallies_in, words_in, cleared, cleared_words, moved, moved_zones, moved_words, passed, passed_records, passed_answers, passed_words};

use crate::array::Held;
use crate::tally::ZONES;
use crate::{array, words};
use elasticity_corotated_linear::CorotatedLinearElasticity;
use failure_maximum_stress::MaximumStressFailure;
use model::Model;
use particles::Step;

// What a call made of the tallies is written, unless it was refused.
fn put_done(r: Held, tallies: &mut [u64], n: usize) -> u8
    requires { (n ≤ 256) × (length tallies.old ≡ n * fields) }
    ensures value { result ≡ r.refusal }
    ensures tallies_after { tallies.new ≡ cond (eqb r.refusal 0) (words_in r.tallies n) tallies.old }
{
    let code = r.refusal;
    if code == 0 {
        let after = r.tallies;
        words::write_tallies(tallies, after, n);
    }
    code
}

fn clear_up_to(particles: usize, zones: &[u64], tallies: &mut [u64], n: usize) -> u8
    requires { (n ≤ 256) × (length tallies.old ≡ n * fields) }
    ensures value { result ≡ clear_refusal particles zones.now n }
    ensures tallies_after { tallies.new ≡ cond (zones_fit particles zones.now n) (words_in (clear_tallies particles zones.now n (tallies_in tallies.old n)) n) tallies.old }
{
    let ts = words::read_tallies(&tallies[..], n);
    let r = array::clear_array(particles, zones, ts, n);
    put_done(r, tallies, n)
}

fn move_up_to(
    particles: usize,
    p: usize,
    z: usize,
    zones: &mut [u64],
    tallies: &mut [u64],
    n: usize,
) -> u8
    requires { (n ≤ 256) × (length tallies.old ≡ n * fields) }
    ensures value { result ≡ move_refusal particles p z zones.old n }
    ensures zones_after { zones.new ≡ move_zones particles p z zones.old n }
    ensures tallies_after { tallies.new ≡ cond (move_fits particles p z zones.old n) (words_in (move_tallies particles p z zones.old n (tallies_in tallies.old n)) n) tallies.old }
{
    let ts = words::read_tallies(&tallies[..], n);
    let r = array::move_array(particles, p, z, zones, ts, n);
    put_done(r, tallies, n)
}

fn pass_up_to(
    s: Step,
    xs: &mut [u64],
    out: &mut [u64],
    zones: &[u64],
    tallies: &mut [u64],
    n: usize,
) -> u8
    requires { (n ≤ 256) × (length tallies.old ≡ n * fields) }
    ensures value { result ≡ pass_refusal xs.old out.old zones.now n (tallies_in tallies.old n) }
    ensures xs_after { xs.new ≡ records_after (step_law s) xs.old out.old zones.now n (tallies_in tallies.old n) }
    ensures out_after { out.new ≡ answers_after (step_law s) xs.old out.old zones.now n (tallies_in tallies.old n) }
    ensures tallies_after { tallies.new ≡ cond (pass_goes xs.old out.old zones.now n (tallies_in tallies.old n)) (words_in (pass_tallies (step_law s) xs.old out.old zones.now n (tallies_in tallies.old n)) n) tallies.old }
{
    let ts = words::read_tallies(&tallies[..], n);
    let r = array::pass_array(s, xs, out, zones, ts, n);
    put_done(r, tallies, n)
}

// The tallies cleared, and particles now counted from the zone list of so many particles. 0, or the refusal's number.
pub fn clear_words(particles: usize, zones: &[u64], tallies: &mut [u64]) -> u8
    ensures value { result ≡ cleared particles zones.now tallies.old }
    ensures tallies_after { tallies.new ≡ cleared_words particles zones.now tallies.old }
{
    if words::whole_words(tallies.len()) {
        let n = tallies.len() / words::FIELDS;
        if n <= ZONES {
            return clear_up_to(particles, zones, tallies, n);
        }
        return answers::BAD_ZONE;
    }
    answers::LENGTH
}

// Particle p goes to zone z, and particles now are counted afresh.
pub fn move_particle_words(
    particles: usize,
    p: usize,
    z: usize,
    zones: &mut [u64],
    tallies: &mut [u64],
) -> u8
    ensures value { result ≡ moved particles p z zones.old tallies.old }
    ensures zones_after { zones.new ≡ moved_zones particles p z zones.old tallies.old }
    ensures tallies_after { tallies.new ≡ moved_words particles p z zones.old tallies.old }
{
    if words::whole_words(tallies.len()) {
        let n = tallies.len() / words::FIELDS;
        if n <= ZONES {
            return move_up_to(particles, p, z, zones, tallies, n);
        }
        return answers::BAD_ZONE;
    }
    answers::LENGTH
}

// A pass by any step of `particles`, each outcome in the tally of its particle's zone.
pub fn pass_by_words(
    s: Step,
    xs: &mut [u64],
    out: &mut [u64],
    zones: &[u64],
    tallies: &mut [u64],
) -> u8
    ensures value { result ≡ passed xs.old out.old zones.now tallies.old }
    ensures xs_after { xs.new ≡ passed_records (step_law s) xs.old out.old zones.now tallies.old }
    ensures out_after { out.new ≡ passed_answers (step_law s) xs.old out.old zones.now tallies.old }
    ensures tallies_after { tallies.new ≡ passed_words (step_law s) xs.old out.old zones.now tallies.old }
{
    if words::whole_words(tallies.len()) & particles::well_sized(xs.len(), out.len()) {
        let n = tallies.len() / words::FIELDS;
        if n <= ZONES {
            return pass_up_to(s, xs, out, zones, tallies, n);
        }
        return answers::BAD_ZONE;
    }
    answers::LENGTH
}

// The pass by the model's law.
pub fn pass_words(
    m: Model,
    xs: &mut [u64],
    out: &mut [u64],
    zones: &[u64],
    tallies: &mut [u64],
) -> u8
    ensures value { result ≡ passed xs.old out.old zones.now tallies.old }
    ensures xs_after { xs.new ≡ passed_records (record_law m) xs.old out.old zones.now tallies.old }
    ensures out_after { out.new ≡ passed_answers (record_law m) xs.old out.old zones.now tallies.old }
    ensures tallies_after { tallies.new ≡ passed_words (record_law m) xs.old out.old zones.now tallies.old }
{
    pass_by_words(Step::Plain(m), xs, out, zones, tallies)
}

// The pass with failure, by limits and corotated law.
pub fn pass_with_failure_words(
    m: Model,
    l: MaximumStressFailure,
    e: CorotatedLinearElasticity,
    xs: &mut [u64],
    out: &mut [u64],
    zones: &[u64],
    tallies: &mut [u64],
) -> u8
    ensures value { result ≡ passed xs.old out.old zones.now tallies.old }
    ensures xs_after { xs.new ≡ passed_records (failure_law m l e) xs.old out.old zones.now tallies.old }
    ensures out_after { out.new ≡ passed_answers (failure_law m l e) xs.old out.old zones.now tallies.old }
    ensures tallies_after { tallies.new ≡ passed_words (failure_law m l e) xs.old out.old zones.now tallies.old }
{
    pass_by_words(Step::Judged(m, l, e), xs, out, zones, tallies)
}
