// The determinants of a host's records, for one that writes F or kept the floats before it.
ghost use Rattle.std.specs.Prelude.{◌≡◌, [], ◌∷◌};
ghost use Rattle.host_lists.specs.Called.{called};
ghost use Rattle.host_passes.specs.Determinants.{fill_by};

pub fn pasoletu_fill_determinants(records: &mut [u64]) -> u8
    ensures { called result (records.new ∷ []) ≡ fill_by records.old }
{
    particles::fill_determinants(records)
}
