ghost use Rattle.std.specs.Prelude.{◌≡◌};
ghost use Rattle.elasticity_neo_hookean.specs.Law.{law_finite};
ghost use Rattle.solid.specs.OfRecord.{refusal_of};
ghost use Rattle.solid.specs.NeoHookean.{stress_at, stress_and_verdict, fpk_stress, elastic_energy_density, elastic_energy_density_in, pos_energy};

use crate::{StressVerdict, judged, refused};
use answers::Answer;
use elasticity_neo_hookean::NeoHookeanElasticity;
use failure_maximum_stress::MaximumStressFailure;
use tensor::MatrixAnswer;

fn stress(law: NeoHookeanElasticity, r: &[u64]) -> MatrixAnswer
    requires { refusal_of (law_finite law) r.now ≡ 0 }
    ensures { result ≡ stress_at law r.now }
{
    let s = record::read_state(r);
    let j = record::float(r, record::DETERMINANT);
    let f = tensor::of_rows(s.f);
    elasticity_neo_hookean::kirchhoff(law, s.scalars.phase, s.scalars.elastic_hardening, f, j)
}

// The Kirchhoff stress and the verdict on its principal values.
pub fn stress_and_verdict(
    law: NeoHookeanElasticity,
    limits: MaximumStressFailure,
    r: &[u64],
) -> StressVerdict
    ensures { result ≡ stress_and_verdict law limits r.now }
{
    let n = refused::refusal(law.law_finite() & limits.limits_finite(), r);
    if n == 0 {
        judged::judged(limits, stress(law, r))
    } else {
        judged::refused_judged(n)
    }
}

pub fn fpk_stress(law: NeoHookeanElasticity, r: &[u64]) -> MatrixAnswer
    ensures { result ≡ fpk_stress law r.now }
{
    let n = refused::refusal(law.law_finite(), r);
    if n == 0 {
        let s = record::read_state(r);
        let j = record::float(r, record::DETERMINANT);
        let f = tensor::of_rows(s.f);
        elasticity_neo_hookean::fpk(law, f, s.scalars.elastic_hardening, j)
    } else {
        tensor::refused_matrix(n)
    }
}

pub fn elastic_energy_density(law: NeoHookeanElasticity, r: &[u64]) -> Answer
    ensures { result ≡ elastic_energy_density law r.now }
{
    elastic_energy_density_in(false, law, r)
}

// `one_split`: below j = 1 the deviatoric part is the tensile one, as in the stress.
pub fn elastic_energy_density_in(one_split: bool, law: NeoHookeanElasticity, r: &[u64]) -> Answer
    ensures { result ≡ elastic_energy_density_in one_split law r.now }
{
    let n = refused::refusal(law.law_finite(), r);
    if n == 0 {
        let s = record::read_state(r);
        let j = record::float(r, record::DETERMINANT);
        let f = tensor::of_rows(s.f);
        let phase = s.scalars.phase;
        let hardening = s.scalars.elastic_hardening;
        elasticity_neo_hookean::density(one_split, law, phase, hardening, f, j)
    } else {
        Answer::Refused(n)
    }
}

// The same, but only the positive part.
pub fn pos_energy(law: NeoHookeanElasticity, r: &[u64]) -> Answer
    ensures { result ≡ pos_energy law r.now }
{
    let n = refused::refusal(law.law_finite(), r);
    if n == 0 {
        let s = record::read_state(r);
        let j = record::float(r, record::DETERMINANT);
        let f = tensor::of_rows(s.f);
        elasticity_neo_hookean::pos(law, s.scalars.phase, s.scalars.elastic_hardening, f, j)
    } else {
        Answer::Refused(n)
    }
}
