// The passes by a model's law: as the factors stand, with our own first, and of flat records.
ghost use Rattle.std.specs.Prelude.{◌≡◌, [], ◌∷◌};
ghost use Rattle.record.specs.Layout.{floats};
ghost use Rattle.one_record.specs.RecordLaw.{record_law};
ghost use Rattle.flat_particles.specs.Law.{flat_law};
ghost use Rattle.flat_particles.specs.Layout as flat;
ghost use Rattle.host_lists.specs.Called.{called};
ghost use Rattle.host_passes.specs.Passes.{pass_by, factored_plain};

#[unsafe(no_mangle)]
pub extern "C" fn pasoletu_pass(
    model: u64,
    parameters: &[u64],
    records: &mut [u64],
    answers: &mut [u64],
    counts: &mut [u64],
) -> u8
    ensures { called result (records.new ∷ answers.new ∷ counts.new ∷ []) ≡ pass_by floats record_law model parameters.now records.old answers.old counts.old }
{
    host_passes::pasoletu_pass(model, parameters, records, answers, counts)
}

#[unsafe(no_mangle)]
pub extern "C" fn pasoletu_pass_factored(
    model: u64,
    parameters: &[u64],
    records: &mut [u64],
    answers: &mut [u64],
    counts: &mut [u64],
) -> u8
    ensures { called result (records.new ∷ answers.new ∷ counts.new ∷ []) ≡ pass_by floats factored_plain model parameters.now records.old answers.old counts.old }
{
    host_passes::pasoletu_pass_factored(model, parameters, records, answers, counts)
}

#[unsafe(no_mangle)]
pub extern "C" fn pasoletu_flat_pass(
    model: u64,
    parameters: &[u64],
    records: &mut [u64],
    answers: &mut [u64],
    counts: &mut [u64],
) -> u8
    ensures { called result (records.new ∷ answers.new ∷ counts.new ∷ []) ≡ pass_by flat.floats flat_law model parameters.now records.old answers.old counts.old }
{
    host_passes::pasoletu_flat_pass(model, parameters, records, answers, counts)
}
