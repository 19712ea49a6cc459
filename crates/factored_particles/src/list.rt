// The pass with our own factors over a lent list of records.
ghost use Rattle.std.specs.Prelude.{◌≡◌, true, ◌+◌, ◌*◌, ◌≤◌, length};
ghost use Rattle.record.specs.Layout.{floats};
ghost use Rattle.model.specs.Ready.{ready_finite};
ghost use Rattle.particles.specs.Pass.{answered, record_at, replaced, worked, answers, counts, passed_with_failure, pass_records, pass_answers};
ghost use Rattle.factored_particles.specs.Step.{own_step_law, own_law, own_taken_law};

use crate::step;
use crate::step::{FactoredStep, FactoredTaken};
use model::Ready;
use one_record::{Judge, Stepped};
use particles::{FailureCounts, PassedWithFailure};

// Record i, and its two answers. The loop alone calls it, and it alone `take_step`: so both are compiled into the loop.
fn one_factored(
    alone: bool,
    q: Ready,
    j: Judge,
    xs: &mut [u64],
    out: &mut [u64],
    i: usize,
) -> Stepped
    requires { (i * floats + floats ≤ length xs.old) × (i * 2 + 2 ≤ length out.old) × (ready_finite q ≡ true) }
    ensures outcome { result.outcome ≡ (own_law alone q j (record_at xs.old i)).outcome }
    ensures failed { result.failed ≡ (own_law alone q j (record_at xs.old i)).failed }
    ensures record { xs.new ≡ replaced xs.old i (own_law alone q j (record_at xs.old i)).after }
    ensures answer { out.new ≡ answered out.old i result.outcome }
{
    let a = i * record::FLOATS;
    let b = a + record::FLOATS;
    let d = step::take_step(alone, q, j, &mut xs[a..b]);
    let o = d.outcome;
    particles::write_answer(out, i, o);
    d
}

// Every record by its index, whatever the ones before it gave.
fn pass_all(t: FactoredTaken, xs: &mut [u64], out: &mut [u64], n: usize) -> FailureCounts
    requires { (length xs.old ≡ n * floats) × (length out.old ≡ n * 2) × (ready_finite t.ready ≡ true) }
    ensures tallies { result ≡ counts (own_taken_law t) xs.old n }
    ensures records { xs.new ≡ worked (own_taken_law t) xs.old n }
    ensures answers { out.new ≡ answers (own_taken_law t) xs.old n }
{
    let mut c = FailureCounts {
        untouched: 0,
        stored: 0,
        refused: 0,
        failed: 0,
    };
    let alone = t.alone;
    let q = t.ready;
    let j = t.judge;
    for i in 0..n {
        let d = one_factored(alone, q, j, xs, out, i);
        c = particles::count_one(c, d.outcome, d.failed);
    }
    c
}

// The pass by a step, with two answers a record in another list. A list that is no whole number of records,
// or an answer list of another length, is refused by 8 and nothing is written.
pub fn pass_by(s: FactoredStep, xs: &mut [u64], out: &mut [u64]) -> PassedWithFailure
    ensures value { result ≡ passed_with_failure (own_step_law s) xs.old out.old }
    ensures xs_after { xs.new ≡ pass_records (own_step_law s) xs.old out.old }
    ensures out_after { out.new ≡ pass_answers (own_step_law s) xs.old out.old }
{
    if particles::well_sized(xs.len(), out.len()) {
        let n = xs.len() / record::FLOATS;
        PassedWithFailure::Done(pass_all(step::ready_for(s), xs, out, n))
    } else {
        PassedWithFailure::Refused(answers::LENGTH)
    }
}
