// Our own factors by themselves: of a record, and of each record of a list.
ghost use Rattle.std.specs.Prelude.{◌≡◌, [], ◌∷◌};
ghost use Rattle.host_lists.specs.Called.{called};
ghost use Rattle.host_passes.specs.Passes.{factors_by};
ghost use Rattle.host_passes.specs.Update.{outcome_code, factor_by};

use crate::counts::put_counts;
use plasticity::Outcome;

// A refusal is the call's; of accepted factors there is nothing else to tell.
fn code(o: Outcome) -> u8
    ensures { result ≡ outcome_code o }
{
    match o {
        Outcome::Untouched => 0,
        Outcome::Stored(_) => 0,
        Outcome::Refused(n) => n,
    }
}

pub fn pasoletu_factor(r: &mut [u64]) -> u8
    ensures { called result (r.new ∷ []) ≡ factor_by r.old }
{
    code(factored_particles::factor_record(r))
}

pub fn pasoletu_factor_list(records: &mut [u64], answers: &mut [u64], counts: &mut [u64]) -> u8
    ensures { called result (records.new ∷ answers.new ∷ counts.new ∷ []) ≡ factors_by records.old answers.old counts.old }
{
    if particles::well_sized(records.len(), answers.len()) & (counts.len() == 3) {
        let passed = factored_particles::factor_list(records, answers);
        return put_counts(passed, counts);
    }
    answers::LENGTH
}
