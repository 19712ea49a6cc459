// The pass over a lent list of flat records.
ghost use Rattle.std.specs.Prelude.{◌≡◌, ◌+◌, ◌*◌, ◌≤◌, length};
ghost use Rattle.particles.specs.Pass.{answered};
ghost use Rattle.flat_particles.specs.Layout.{floats};
ghost use Rattle.flat_particles.specs.Law.{flat_law};
ghost use Rattle.flat_particles.specs.Pass.{three_of, record_over, replaced_over, worked_over, answers_over, counts_over, sized_over, passed_over, records_over, list_over};

use crate::{answer, flat_record, step};
use model::Model;
use particles::{Counts, Passed};
use plasticity::Outcome;

// Record i, and its two answers.
fn one(m: Model, xs: &mut [u64], out: &mut [u64], i: usize) -> Outcome
    requires { (i * floats + floats ≤ length xs.old) × (i * 2 + 2 ≤ length out.old) }
    ensures outcome { result ≡ (flat_law m (record_over floats xs.old i)).outcome }
    ensures record { xs.new ≡ replaced_over floats xs.old i (flat_law m (record_over floats xs.old i)).after }
    ensures answer { out.new ≡ answered out.old i result }
{
    let a = i * flat_record::FLOATS;
    let b = a + flat_record::FLOATS;
    let o = step::step(m, &mut xs[a..b]);
    answer::write_answer(out, i, o);
    o
}

// Every record by its index, whatever the ones before it gave.
fn pass_all(m: Model, xs: &mut [u64], out: &mut [u64], n: usize) -> Counts
    requires { (length xs.old ≡ n * floats) × (length out.old ≡ n * 2) }
    ensures tallies { result ≡ three_of (counts_over floats (flat_law m) xs.old n) }
    ensures records { xs.new ≡ worked_over floats (flat_law m) xs.old n }
    ensures answers { out.new ≡ answers_over floats (flat_law m) xs.old n }
{
    let mut c = Counts {
        untouched: 0,
        stored: 0,
        refused: 0,
    };
    for i in 0..n {
        c = answer::count_one(c, one(m, xs, out, i));
    }
    c
}

// Whether so many words are a whole number of flat records, and so many places two answers for each.
pub fn well_sized(words: usize, places: usize) -> bool
    ensures { result ≡ sized_over floats words places }
{
    let n = words / flat_record::FLOATS;
    (n * flat_record::FLOATS == words) & (n * 2 == places)
}

// The pass by the model's law in two axes, with two answers a record in another list. A list that is no whole number of flat records, or an
// answer list of another length, is refused by 8 and nothing is written.
pub fn pass(m: Model, xs: &mut [u64], out: &mut [u64]) -> Passed
    ensures value { result ≡ passed_over floats (flat_law m) xs.old out.old }
    ensures xs_after { xs.new ≡ records_over floats (flat_law m) xs.old out.old }
    ensures out_after { out.new ≡ list_over floats (flat_law m) xs.old out.old }
{
    if well_sized(xs.len(), out.len()) {
        let n = xs.len() / flat_record::FLOATS;
        Passed::Done(pass_all(m, xs, out, n))
    } else {
        Passed::Refused(answers::LENGTH)
    }
}
