ghost use Rattle.std.specs.Prelude.{◌≡◌};
ghost use Rattle.elasticity_corotated_linear.specs.Law.{law_finite};
ghost use Rattle.solid.specs.OfRecord.{refusal_of};
ghost use Rattle.solid.specs.Corotated.{stress_at, stress_and_verdict, elastic_energy_density, pos_energy};

use crate::{StressVerdict, judged, refused};
use answers::Answer;
use elasticity_corotated_linear::CorotatedLinearElasticity;
use failure_maximum_stress::MaximumStressFailure;
use tensor::MatrixAnswer;

// By the factors that stand in the record.
fn stress(law: CorotatedLinearElasticity, r: &[u64]) -> MatrixAnswer
    requires { refusal_of (law_finite law) r.now ≡ 0 }
    ensures { result ≡ stress_at law r.now }
{
    let s = record::read_state(r);
    let u = record::read_u(r);
    let vt = record::read_vt(r);
    let j = record::float(r, record::DETERMINANT);
    let f = tensor::of_rows(s.f);
    let phase = s.scalars.phase;
    let hardening = s.scalars.elastic_hardening;
    let sigma = s.sigma;
    elasticity_corotated_linear::kirchhoff(law, phase, hardening, f, u, sigma, vt, j)
}

// The Kirchhoff stress and the verdict on its principal values.
pub fn stress_and_verdict(
    law: CorotatedLinearElasticity,
    limits: MaximumStressFailure,
    r: &[u64],
) -> StressVerdict
    ensures { result ≡ stress_and_verdict law limits r.now }
{
    let n = refused::refusal(law.law_finite() & limits.limits_finite(), r);
    if n == 0 {
        judged::judged(limits, stress(law, r))
    } else {
        judged::refused_judged(n)
    }
}

// Of sigma, whose product it takes.
pub fn elastic_energy_density(law: CorotatedLinearElasticity, r: &[u64]) -> Answer
    ensures { result ≡ elastic_energy_density law r.now }
{
    let n = refused::refusal(law.law_finite(), r);
    if n == 0 {
        let s = record::read_state(r);
        let sigma = s.sigma;
        law.elastic_energy_density(sigma, s.scalars.elastic_hardening)
    } else {
        Answer::Refused(n)
    }
}

// The same, but only the positive part, with the determinant.
pub fn pos_energy(law: CorotatedLinearElasticity, r: &[u64]) -> Answer
    ensures { result ≡ pos_energy law r.now }
{
    let n = refused::refusal(law.law_finite(), r);
    if n == 0 {
        let s = record::read_state(r);
        let j = record::float(r, record::DETERMINANT);
        let sigma = s.sigma;
        elasticity_corotated_linear::pos(law, sigma, s.scalars.elastic_hardening, j)
    } else {
        Answer::Refused(n)
    }
}
