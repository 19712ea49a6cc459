// A sheet from its bytes to its answers: read, then passed (RULES, section 7).
#![tactic(auto)]

mod out;

ghost use Rattle.std.specs.Prelude.{true, ◌≡◌, ◌*◌, ◌≤◌, length};
ghost use Rattle.record.specs.Layout.{floats};
ghost use Rattle.model.specs.Kinds.{model_known};
ghost use Rattle.sheet_run.specs.Run.{stopped, finished, front_of, front_records, front_answers, ran_of, ran_records, ran_answers};

pub use out::run_out;
use particles::{Counts, Passed};
use sheet::Header;

// Refusal 0 where the sheet was read: how many particles it has, and the counts of their outcomes. Beside
// a refusal all else is 0.
#[derive(Drop)]
pub struct Ran {
    pub refusal: u8,
    pub particles: usize,
    pub counts: Counts,
}

fn refused(n: u8) -> Ran
    ensures { result ≡ stopped n }
{
    Ran {
        refusal: n,
        particles: 0,
        counts: Counts {
            untouched: 0,
            stored: 0,
            refused: 0,
        },
    }
}

fn outcome(particles: usize, passed: Passed) -> Ran
    ensures { result ≡ finished particles passed }
{
    match passed {
        Passed::Done(counts) => Ran {
            refusal: 0,
            particles,
            counts,
        },
        Passed::Refused(n) => refused(n),
    }
}

// Passes the records that a header speaks of, at the front of both rooms.
fn pass_front(h: Header, records: &mut [u64], answers: &mut [u64]) -> Ran
    requires { (h.count * floats ≤ length records.old) × (h.count * 2 ≤ length answers.old) × (model_known h.model h.parameters ≡ true) }
    ensures value { result ≡ front_of h records.old answers.old }
    ensures records_after { records.new ≡ front_records h records.old answers.old }
    ensures answers_after { answers.new ≡ front_answers h records.old answers.old }
{
    let n = h.count;
    let parameters = h.parameters;
    let m = model::model_of(h.model, &parameters);
    let a = n * record::FLOATS;
    let b = n * 2;
    let passed = particles::pass(m, &mut records[..a], &mut answers[..b]);
    outcome(n, passed)
}

// Reads the sheet into `records` and passes it, two answers a particle. The lists are rooms for as many
// particles as the sheet may have: of a shorter sheet the rest of both keeps its bits. A refused sheet, or
// rooms that do not fit (8), writes nothing.
pub fn run_sheet(s: &[u8], records: &mut [u64], answers: &mut [u64]) -> Ran
    ensures value { result ≡ ran_of s.now records.old answers.old }
    ensures records_after { records.new ≡ ran_records s.now records.old answers.old }
    ensures answers_after { answers.new ≡ ran_answers s.now records.old answers.old }
{
    if particles::well_sized(records.len(), answers.len()) {
        let h = reader::read(s, records);
        if h.refusal != 0 {
            return refused(h.refusal);
        }
        return pass_front(h, records, answers);
    }
    refused(answers::LENGTH)
}
