// Stress and verdict of a record as one, by each solid law. No call takes a stress: what is judged is what is answered beside it.
ghost use Rattle.std.specs.Prelude.{◌≡◌, [], ◌∷◌};
ghost use Rattle.host_lists.specs.Called.{called};
ghost use Rattle.host_lists.specs.Out.{judged_in};
ghost use Rattle.host.specs.Judged.{neo_hookean_stress_and_verdict, corotated_stress_and_verdict};

pub fn pasoletu_neo_hookean_stress_and_verdict(
    law: &[u64],
    limits: &[u64],
    r: &[u64],
    stress: &mut [u64],
    verdict: &mut [u64],
) -> u8
    ensures { called result (stress.new ∷ verdict.new ∷ []) ≡ judged_in (neo_hookean_stress_and_verdict law.now limits.now r.now) stress.old verdict.old }
{
    let ok = (law.len() == 3) & (limits.len() == 2) & (r.len() == record::FLOATS);
    let p = host_lists::neo_hookean(law);
    let a = solid::neo_hookean::stress_and_verdict(p, host_lists::limits(limits), r);
    host_lists::put_judged(host_lists::sized_judged(ok, a), stress, verdict)
}

pub fn pasoletu_corotated_stress_and_verdict(
    law: &[u64],
    limits: &[u64],
    r: &[u64],
    stress: &mut [u64],
    verdict: &mut [u64],
) -> u8
    ensures { called result (stress.new ∷ verdict.new ∷ []) ≡ judged_in (corotated_stress_and_verdict law.now limits.now r.now) stress.old verdict.old }
{
    let ok = (law.len() == 4) & (limits.len() == 2) & (r.len() == record::FLOATS);
    let p = host_lists::corotated(law);
    let a = solid::corotated_linear::stress_and_verdict(p, host_lists::limits(limits), r);
    let b = host_lists::flagged_judged(record::word(law, 0), a);
    host_lists::put_judged(host_lists::sized_judged(ok, b), stress, verdict)
}
