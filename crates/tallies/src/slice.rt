// The calls on tallies that are lent as a slice. What is refused leaves every lent list.
ghost use Rattle.std.specs.Prelude.{◌≡◌, true, ◌+◌, ◌*◌, ◌≤◌, ◌<◌, length, get_or, set};
ghost use Rattle.record.specs.Layout.{floats};
ghost use Rattle.particles.specs.Pass.{record_at, replaced, answered, worked, answers};
ghost use Rattle.particles.specs.Step.{step_law, taken_finite, taken_law};
ghost use Rattle.tallies.specs.Zones.{below_in};
ghost use Rattle.tallies.specs.Tallies.{none, told_of, grown, Small, by_zone, recounted, tallied_in, room_in, clear_refusal, clear_tallies, move_refusal, move_zones, move_tallies, pass_refusal, records_after, answers_after, pass_tallies};
ghost use Rattle.tallies.specs.Plans.{planned, room_by};

use crate::plan::Plan;
use crate::tally::{Tally, Told};
use crate::{plan, tally};
use particles::{Step, Taken};

// Record i is worked by what was made ready, its two answers are written, and what its outcome adds to is told.
fn tell_record(t: Taken, xs: &mut [u64], out: &mut [u64], i: usize) -> Told
    requires { (i * floats + floats ≤ length xs.old) × (i * 2 + 2 ≤ length out.old) × (taken_finite t ≡ true) }
    ensures { (result ≡ told_of (taken_law t (record_at xs.old i)).outcome (taken_law t (record_at xs.old i)).failed) × (xs.new ≡ replaced xs.old i (taken_law t (record_at xs.old i)).after) × (out.new ≡ answered out.old i (taken_law t (record_at xs.old i)).outcome) }
{
    let q = t.ready;
    let j = t.judge;
    let a = i * record::FLOATS;
    let b = a + record::FLOATS;
    let d = one_record::take_step(q, j, &mut xs[a..b]);
    let o = d.outcome;
    particles::write_answer(out, i, o);
    tally::tell(o, d.failed)
}

// One more in the field that the step told, of one tally; and one more failed where it told so.
fn count_told(ts: &mut [Tally], z: usize, d: Told)
    requires { (z < length ts.old) × Small (get_or ts.old z none) }
    ensures { ts.new ≡ set ts.old z (grown (get_or ts.old z none) d) }
{
    if d.failed {
        ts[z].failed = ts[z].failed + 1;
    }
    if d.which == 0 {
        ts[z].untouched = ts[z].untouched + 1;
        return;
    }
    if d.which == 1 {
        ts[z].stored = ts[z].stored + 1;
        return;
    }
    ts[z].refused = ts[z].refused + 1;
}

// Every record by its index, whatever the ones before it gave, and its outcome in the tally of its zone. The step is made ready once.
fn pass_all(s: Step, xs: &mut [u64], out: &mut [u64], zones: &[u64], ts: &mut [Tally], n: usize)
    requires { (length xs.old ≡ length zones.now * floats) × (length out.old ≡ length zones.now * 2) × (n ≤ length ts.old) × (below_in n zones.now (length zones.now) ≡ true) × (room_in (recounted zones.now ts.old) n ≡ true) }
    ensures { (ts.new ≡ by_zone (tallied_in (step_law s) xs.old zones.now (length zones.now)) 0 ts.old) × (xs.new ≡ worked (step_law s) xs.old (length zones.now)) × (out.new ≡ answers (step_law s) xs.old (length zones.now)) }
{
    let t = particles::ready_for(s);
    for (i, z) in zones.iter().enumerate() {
        let d = tell_record(t, xs, out, i);
        count_told(ts, *z as usize, d);
    }
}

// Each tally as the plan has it, by the step by value; and whether all have room for the particles counted.
fn settle_all(ts: &mut [Tally], what: u64, counts: &[u64]) -> bool
    ensures { (result ≡ room_by counts.now ts.old (length ts.old)) × (ts.new ≡ by_zone (planned what counts.now) 0 ts.old) }
{
    let mut ok = true;
    for (z, t) in ts.iter_mut().enumerate() {
        ok = plan::room_too(ok, *t, counts, z);
        *t = plan::settled(*t, what, counts, z);
    }
    ok
}

// The same of a plan, whose counts are lent: none of them is copied for a tally.
fn settle(ts: &mut [Tally], p: Plan) -> bool
    ensures { (result ≡ room_by p.counts ts.old (length ts.old)) × (ts.new ≡ by_zone (planned p.what p.counts) 0 ts.old) }
{
    let what = p.what;
    let counts = p.counts;
    settle_all(ts, what, &counts)
}

// The lent tallies cleared, and particles now counted: 0, or 12 and nothing changed.
pub fn clear(particles: usize, zones: &[u64], ts: &mut [Tally]) -> u8
    ensures { (result ≡ clear_refusal particles zones.now (length ts.old)) × (ts.new ≡ clear_tallies particles zones.now (length ts.old) ts.old) }
{
    let p = plan::to_clear(particles, zones, ts.len());
    settle(ts, p);
    p.refusal
}

// A pass by a step of `particles`, the law's or the law's and then the verdict's, each outcome in the tally of its particle's zone: 8, 12 and 13 before any
// record, and nothing changed then.
pub fn pass_by(s: Step, xs: &mut [u64], out: &mut [u64], zones: &[u64], ts: &mut [Tally]) -> u8
    ensures { (result ≡ pass_refusal xs.old out.old zones.now (length ts.old) ts.old) × (xs.new ≡ records_after (step_law s) xs.old out.old zones.now (length ts.old) ts.old) × (out.new ≡ answers_after (step_law s) xs.old out.old zones.now (length ts.old) ts.old) × (ts.new ≡ pass_tallies (step_law s) xs.old out.old zones.now (length ts.old) ts.old) }
{
    let p = plan::to_pass(xs.len(), out.len(), zones, ts.len());
    let ok = settle(ts, p);
    let q = plan::to_count(p, ok);
    settle(ts, q);
    let code = q.refusal;
    if code == 0 {
        pass_all(s, xs, out, zones, ts, ts.len());
        return code;
    }
    code
}

// Particle p goes to zone z, and particles now are counted afresh: 0, or 12 and nothing changed.
pub fn move_particle(
    particles: usize,
    p: usize,
    z: usize,
    zones: &mut [u64],
    ts: &mut [Tally],
) -> u8
    ensures { (result ≡ move_refusal particles p z zones.old (length ts.old)) × (zones.new ≡ move_zones particles p z zones.old (length ts.old)) × (ts.new ≡ move_tallies particles p z zones.old (length ts.old) ts.old) }
{
    let q = plan::to_move(particles, p, z, zones, ts.len());
    settle(ts, q);
    q.refusal
}
