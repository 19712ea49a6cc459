// NACC's parameter m of a friction angle, for the records that a host passes.
ghost use Rattle.std.specs.Prelude.{◌≡◌, [], ◌∷◌};
ghost use Rattle.host_lists.specs.Called.{called};
ghost use Rattle.host_lists.specs.Out.{number_in};
ghost use Rattle.host_passes.specs.Friction.{nacc_friction};

use answers::Answer;

// In two axes or three.
fn friction_in(axes: u64, angle: f64) -> Answer
    ensures { result ≡ nacc_friction axes angle }
{
    if axes == 2 {
        plasticity_nacc::friction_of(2.0, angle)
    } else if axes == 3 {
        plasticity_nacc::friction_of(3.0, angle)
    } else {
        Answer::Refused(answers::UNKNOWN)
    }
}

pub fn pasoletu_nacc_friction(axes: u64, friction_angle: f64, out: &mut [u64]) -> u8
    ensures { called result (out.new ∷ []) ≡ number_in (nacc_friction axes friction_angle) out.old }
{
    host_lists::put(friction_in(axes, friction_angle), out)
}
