// NACC's parameter m of a friction angle, for the records that a host passes.
ghost use Rattle.std.specs.Prelude.{◌≡◌, [], ◌∷◌};
ghost use Rattle.host_lists.specs.Called.{called};
ghost use Rattle.host_lists.specs.Out.{number_in};
ghost use Rattle.host_passes.specs.Friction.{nacc_friction};

#[unsafe(no_mangle)]
pub extern "C" fn pasoletu_nacc_friction(axes: u64, friction_angle: f64, out: &mut [u64]) -> u8
    ensures { called result (out.new ∷ []) ≡ number_in (nacc_friction axes friction_angle) out.old }
{
    host_passes::pasoletu_nacc_friction(axes, friction_angle, out)
}
