// The passes with failure: as the factors stand, and with our own first.
ghost use Rattle.std.specs.Prelude.{◌≡◌, [], ◌∷◌};
ghost use Rattle.one_record.specs.Judged.{failure_law};
ghost use Rattle.host_lists.specs.Called.{called};
ghost use Rattle.host_passes.specs.Passes.{failure_by, factored_failure};

#[unsafe(no_mangle)]
pub extern "C" fn pasoletu_pass_with_failure(
    model: u64,
    parameters: &[u64],
    limits: &[u64],
    corotated: &[u64],
    records: &mut [u64],
    answers: &mut [u64],
    counts: &mut [u64],
) -> u8
    ensures { called result (records.new ∷ answers.new ∷ counts.new ∷ []) ≡ failure_by failure_law model parameters.now limits.now corotated.now records.old answers.old counts.old }
{
    host_passes::pasoletu_pass_with_failure(
        model, parameters, limits, corotated, records, answers, counts,
    )
}

#[unsafe(no_mangle)]
pub extern "C" fn pasoletu_pass_factored_with_failure(
    model: u64,
    parameters: &[u64],
    limits: &[u64],
    corotated: &[u64],
    records: &mut [u64],
    answers: &mut [u64],
    counts: &mut [u64],
) -> u8
    ensures { called result (records.new ∷ answers.new ∷ counts.new ∷ []) ≡ failure_by factored_failure model parameters.now limits.now corotated.now records.old answers.old counts.old }
{
    host_passes::pasoletu_pass_factored_with_failure(
        model, parameters, limits, corotated, records, answers, counts,
    )
}
