// Stress and verdict of a record as one, by each solid law. No call takes a stress: what is judged is what is answered beside it.
ghost use Rattle.std.specs.Prelude.{◌≡◌, [], ◌∷◌};
ghost use Rattle.host_lists.specs.Called.{called};
ghost use Rattle.host_lists.specs.Out.{judged_in};
ghost use Rattle.host.specs.Judged.{neo_hookean_stress_and_verdict, corotated_stress_and_verdict};

#[unsafe(no_mangle)]
pub extern "C" fn pasoletu_neo_hookean_stress_and_verdict(
    law: &[u64],
    limits: &[u64],
    r: &[u64],
    stress: &mut [u64],
    verdict: &mut [u64],
) -> u8
    ensures { called result (stress.new ∷ verdict.new ∷ []) ≡ judged_in (neo_hookean_stress_and_verdict law.now limits.now r.now) stress.old verdict.old }
{
    host::judged::pasoletu_neo_hookean_stress_and_verdict(law, limits, r, stress, verdict)
}

#[unsafe(no_mangle)]
pub extern "C" fn pasoletu_corotated_stress_and_verdict(
    law: &[u64],
    limits: &[u64],
    r: &[u64],
    stress: &mut [u64],
    verdict: &mut [u64],
) -> u8
    ensures { called result (stress.new ∷ verdict.new ∷ []) ≡ judged_in (corotated_stress_and_verdict law.now limits.now r.now) stress.old verdict.old }
{
    host::judged::pasoletu_corotated_stress_and_verdict(law, limits, r, stress, verdict)
}
