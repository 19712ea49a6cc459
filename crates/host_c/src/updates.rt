// The update of one record by a plastic law, of a flat record too.
ghost use Rattle.std.specs.Prelude.{◌≡◌, [], ◌∷◌};
ghost use Rattle.record.specs.Layout.{floats};
ghost use Rattle.one_record.specs.RecordLaw.{record_law};
ghost use Rattle.flat_particles.specs.Law.{flat_law};
ghost use Rattle.flat_particles.specs.Layout as flat;
ghost use Rattle.host_lists.specs.Called.{called};
ghost use Rattle.host_passes.specs.Update.{update_by};

#[unsafe(no_mangle)]
pub extern "C" fn pasoletu_update(
    model: u64,
    parameters: &[u64],
    r: &mut [u64],
    answer: &mut [u64],
) -> u8
    ensures { called result (r.new ∷ answer.new ∷ []) ≡ update_by floats record_law model parameters.now r.old answer.old }
{
    host_passes::pasoletu_update(model, parameters, r, answer)
}

#[unsafe(no_mangle)]
pub extern "C" fn pasoletu_flat_update(
    model: u64,
    parameters: &[u64],
    r: &mut [u64],
    answer: &mut [u64],
) -> u8
    ensures { called result (r.new ∷ answer.new ∷ []) ≡ update_by flat.floats flat_law model parameters.now r.old answer.old }
{
    host_passes::pasoletu_flat_update(model, parameters, r, answer)
}
