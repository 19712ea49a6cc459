// The pass over a lent list of records by any step.
ghost use Rattle.std.specs.Prelude.{◌≡◌, true, ◌+◌, ◌*◌, ◌^◌, ◌≤◌, ◌<◌, length};
ghost use Rattle.record.specs.Layout.{floats};
ghost use Rattle.model.specs.Ready.{ready_finite};
ghost use Rattle.one_record.specs.RecordLaw.{record_law};
ghost use Rattle.one_record.specs.ReadyRecord.{ready_law};
ghost use Rattle.particles.specs.Step.{step_law, taken_finite, taken_law};
ghost use Rattle.particles.specs.Pass.{code_of, value_of, AmountFinite, answered, record_at, replaced, worked, answers, counted_if, counted, counts, sized, without_verdicts, passed, passed_with_failure, pass_records, pass_answers};

use crate::failure::{FailureCounts, PassedWithFailure};
use crate::step;
use crate::step::{Step, Taken};
use model::{Model, Ready};
use one_record::{Judge, Stepped};
use plasticity::Outcome;

// How many records were left untouched, stored and refused.
#[derive(Drop)]
pub struct Counts {
    pub untouched: usize,
    pub stored: usize,
    pub refused: usize,
}

#[derive(Drop)]
pub enum Passed {
    Done(Counts),
    Refused(u8),
}

// The answer's first number: 0 untouched, 1 stored, 2 refused.
fn code(o: Outcome) -> u64
    ensures { result ≡ code_of o }
{
    match o {
        Outcome::Untouched => 0,
        Outcome::Stored(_) => 1,
        Outcome::Refused(_) => 2,
    }
}

// And its second: 0, the amount's bits, or the refusal's number. An amount that is stored is finite, and so it isn't tested for a NaN.
fn value(o: Outcome) -> u64
    requires { AmountFinite o }
    ensures { result ≡ value_of o }
{
    match o {
        Outcome::Untouched => 0,
        Outcome::Stored(a) => record::finite_bits(a),
        Outcome::Refused(n) => n as u64,
    }
}

fn count_failed(n: usize, failed: bool) -> usize
    requires { n < 2 ^ 63 }
    ensures { result ≡ counted_if n failed }
{
    if failed { n + 1 } else { n }
}

// One record more.
pub fn count_one(c: FailureCounts, o: Outcome, failed: bool) -> FailureCounts
    requires { (c.untouched < 2 ^ 63) × (c.stored < 2 ^ 63) × (c.refused < 2 ^ 63) × (c.failed < 2 ^ 63) }
    ensures { result ≡ counted c o failed }
{
    let n = count_failed(c.failed, failed);
    match o {
        Outcome::Untouched => FailureCounts {
            untouched: c.untouched + 1,
            stored: c.stored,
            refused: c.refused,
            failed: n,
        },
        Outcome::Stored(_) => FailureCounts {
            untouched: c.untouched,
            stored: c.stored + 1,
            refused: c.refused,
            failed: n,
        },
        Outcome::Refused(_) => FailureCounts {
            untouched: c.untouched,
            stored: c.stored,
            refused: c.refused + 1,
            failed: n,
        },
    }
}

// The two answers of record i.
pub fn write_answer(out: &mut [u64], i: usize, o: Outcome)
    requires { (i * 2 + 2 ≤ length out.old) × AmountFinite o }
    ensures { out.new ≡ answered out.old i o }
{
    let k = i * 2;
    out[k] = code(o);
    out[k + 1] = value(o);
}

// Record i, and its two answers. The loop alone calls it: so it is compiled into the loop, and no record costs a copy of what was made ready.
fn one_ready(q: Ready, j: Judge, xs: &mut [u64], out: &mut [u64], i: usize) -> Stepped
    requires { (i * floats + floats ≤ length xs.old) × (i * 2 + 2 ≤ length out.old) × (ready_finite q ≡ true) }
    ensures outcome { result.outcome ≡ (ready_law q j (record_at xs.old i)).outcome }
    ensures failed { result.failed ≡ (ready_law q j (record_at xs.old i)).failed }
    ensures record { xs.new ≡ replaced xs.old i (ready_law q j (record_at xs.old i)).after }
    ensures answer { out.new ≡ answered out.old i result.outcome }
{
    let a = i * record::FLOATS;
    let b = a + record::FLOATS;
    let d = one_record::take_step(q, j, &mut xs[a..b]);
    let o = d.outcome;
    write_answer(out, i, o);
    d
}

// Every record by its index, whatever the ones before it gave.
fn pass_all(t: Taken, xs: &mut [u64], out: &mut [u64], n: usize) -> FailureCounts
    requires { (length xs.old ≡ n * floats) × (length out.old ≡ n * 2) × (taken_finite t ≡ true) }
    ensures tallies { result ≡ counts (taken_law t) xs.old n }
    ensures records { xs.new ≡ worked (taken_law t) xs.old n }
    ensures answers { out.new ≡ answers (taken_law t) xs.old n }
{
    let mut c = FailureCounts {
        untouched: 0,
        stored: 0,
        refused: 0,
        failed: 0,
    };
    let q = t.ready;
    let j = t.judge;
    for i in 0..n {
        let d = one_ready(q, j, xs, out, i);
        c = count_one(c, d.outcome, d.failed);
    }
    c
}

// Whether so many words are a whole number of records, and so many places two answers for each.
pub fn well_sized(words: usize, places: usize) -> bool
    ensures { result ≡ sized words places }
{
    let n = words / record::FLOATS;
    (n * record::FLOATS == words) & (n * 2 == places)
}

// The pass by a step, with two answers a record in another list. A list that is no whole number of records,
// or an answer list of another length, is refused by 8 and nothing is written.
pub fn pass_by(s: Step, xs: &mut [u64], out: &mut [u64]) -> PassedWithFailure
    ensures value { result ≡ passed_with_failure (step_law s) xs.old out.old }
    ensures xs_after { xs.new ≡ pass_records (step_law s) xs.old out.old }
    ensures out_after { out.new ≡ pass_answers (step_law s) xs.old out.old }
{
    if well_sized(xs.len(), out.len()) {
        let n = xs.len() / record::FLOATS;
        PassedWithFailure::Done(pass_all(step::ready_for(s), xs, out, n))
    } else {
        PassedWithFailure::Refused(answers::LENGTH)
    }
}

// A pass's first three counts.
pub fn three(p: PassedWithFailure) -> Passed
    ensures { result ≡ without_verdicts p }
{
    match p {
        PassedWithFailure::Done(c) => Passed::Done(Counts {
            untouched: c.untouched,
            stored: c.stored,
            refused: c.refused,
        }),
        PassedWithFailure::Refused(n) => Passed::Refused(n),
    }
}

// The pass by the model's law.
pub fn pass(m: Model, xs: &mut [u64], out: &mut [u64]) -> Passed
    ensures value { result ≡ passed (record_law m) xs.old out.old }
    ensures xs_after { xs.new ≡ pass_records (record_law m) xs.old out.old }
    ensures out_after { out.new ≡ pass_answers (record_law m) xs.old out.old }
{
    three(pass_by(Step::Plain(m), xs, out))
}
