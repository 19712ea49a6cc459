// Without a judge (RULES, section 7).
ghost use Rattle.std.specs.Prelude.{◌≡◌};
ghost use Rattle.one_record.specs.RecordLaw.{record_outcome, record_after};

use crate::judged;
use crate::judged::Judge;
use model::Model;
use plasticity::Outcome;

// One record by itself. A list of another length is refused by 8 and keeps its bits.
pub fn update_record(m: Model, r: &mut [u64]) -> Outcome
    ensures value { result ≡ record_outcome m r.old }
    ensures r_after { r.new ≡ record_after m r.old }
{
    if r.len() == record::FLOATS {
        let d = judged::take_step(model::make_ready(m), Judge::Nobody, r);
        return d.outcome;
    }
    Outcome::Refused(answers::LENGTH)
}
