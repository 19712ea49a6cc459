// Why a record moves, or why it doesn't.
ghost use Rattle.std.specs.Prelude.{◌≡◌, [], ◌∷◌};
ghost use Rattle.host_lists.specs.Called.{called};
ghost use Rattle.host_passes.specs.Causes.{why_by};

#[unsafe(no_mangle)]
pub extern "C" fn pasoletu_why(model: u64, parameters: &[u64], r: &[u64], reason: &mut [u64]) -> u8
    ensures { called result (reason.new ∷ []) ≡ why_by model parameters.now r.now reason.old }
{
    host_passes::pasoletu_why(model, parameters, r, reason)
}
