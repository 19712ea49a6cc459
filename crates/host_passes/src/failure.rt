// The passes with failure: as the factors stand, and with our own first.
ghost use Rattle.std.specs.Prelude.{◌≡◌, [], ◌∷◌};
ghost use Rattle.one_record.specs.Judged.{failure_law};
ghost use Rattle.host_lists.specs.Called.{called};
ghost use Rattle.host_passes.specs.Passes.{failure_by, factored_failure};

use crate::counts::put_failure_counts;

pub fn pasoletu_pass_with_failure(
    model: u64,
    parameters: &[u64],
    limits: &[u64],
    corotated: &[u64],
    records: &mut [u64],
    answers: &mut [u64],
    counts: &mut [u64],
) -> u8
    ensures { called result (records.new ∷ answers.new ∷ counts.new ∷ []) ≡ failure_by failure_law model parameters.now limits.now corotated.now records.old answers.old counts.old }
{
    if model::fit(model, parameters)
        & (limits.len() == 2)
        & (corotated.len() == 4)
        & particles::well_sized(records.len(), answers.len())
        & (counts.len() == 4)
    {
        if model::known(model, parameters) & model::is_flag(record::word(corotated, 0)) {
            let passed = particles::pass_with_failure(
                model::model_of(model, parameters),
                host_lists::limits(limits),
                host_lists::corotated(corotated),
                records,
                answers,
            );
            return put_failure_counts(passed, counts);
        }
        return answers::UNKNOWN;
    }
    answers::LENGTH
}

pub fn pasoletu_pass_factored_with_failure(
    model: u64,
    parameters: &[u64],
    limits: &[u64],
    corotated: &[u64],
    records: &mut [u64],
    answers: &mut [u64],
    counts: &mut [u64],
) -> u8
    ensures { called result (records.new ∷ answers.new ∷ counts.new ∷ []) ≡ failure_by factored_failure model parameters.now limits.now corotated.now records.old answers.old counts.old }
{
    if model::fit(model, parameters)
        & (limits.len() == 2)
        & (corotated.len() == 4)
        & particles::well_sized(records.len(), answers.len())
        & (counts.len() == 4)
    {
        if model::known(model, parameters) & model::is_flag(record::word(corotated, 0)) {
            let passed = factored_particles::pass_factored_with_failure(
                model::model_of(model, parameters),
                host_lists::limits(limits),
                host_lists::corotated(corotated),
                records,
                answers,
            );
            return put_failure_counts(passed, counts);
        }
        return answers::UNKNOWN;
    }
    answers::LENGTH
}
