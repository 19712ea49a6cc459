ghost use Rattle.std.specs.Prelude.{◌≡◌, true, cond, map};
ghost use Rattle.answers.specs.Refusals.{no_number};
ghost use Rattle.answers.specs.Answer.{answered_of};
ghost use Rattle.answers.specs.declared.Answer.TheVariants.{Refused};
ghost use Rattle.numbers.specs.Floats.{is_number};
ghost use Rattle.numbers.specs.Power.{powi_of};
ghost use Rattle.std.specs.Float.Ieee.{lt};
ghost use Rattle.tensor.specs.Matrix.{add, one, sum_of};
ghost use Rattle.tensor.specs.Finite.{row_finite};
ghost use Rattle.walk.specs.Expr.{num, value};
ghost use Rattle.walk.specs.Walk.{walk_result, answer_as};
ghost use Rattle.elasticity_corotated_linear.specs.Energy.{density, pos_dev_part, spherical_energy, pos_from};

use crate::{CorotatedLinearElasticity, stress};
use answers::Answer;

fn squares(e: [f64; 3]) -> f64
    ensures { result ≡ sum_of (map (λ x. powi_of x 2) e) }
{
    numbers::powi(e[0], 2) + numbers::powi(e[1], 2) + numbers::powi(e[2], 2)
}

pub fn energy(p: CorotatedLinearElasticity, sigma: [f64; 3], hardening: f64) -> f64
    ensures { result ≡ value (density p sigma hardening) }
{
    let hardened_mu = p.mu * hardening;
    let hardened_lambda = p.lambda * hardening;
    let determinant = tensor::product(sigma);
    hardened_mu * squares(stress::less_one(sigma))
        + hardened_lambda / 2.0 * numbers::powi(determinant - 1.0, 2)
}

fn pos_dev_part(p: CorotatedLinearElasticity, e: [f64; 3], hardening: f64) -> f64
    ensures { result ≡ value (pos_dev_part p hardening e) }
{
    p.mu * hardening * tensor::dot(e, e)
}

fn spherical_energy(p: CorotatedLinearElasticity, j: f64, hardening: f64) -> f64
    ensures { result ≡ value (spherical_energy p hardening (num j)) }
{
    p.lambda * hardening / 2.0 * (j - 1.0) * (j - 1.0)
}

fn pos_sum(j: f64, dev: f64, sph: f64) -> Answer
    ensures { result ≡ cond (is_number sph) (cond (lt j one) (answered_of dev) (answered_of (add dev sph))) (Refused no_number) }
{
    if numbers::is_number(sph) {
        if j < 1.0 {
            answers::answered(dev)
        } else {
            answers::answered(dev + sph)
        }
    } else {
        Answer::Refused(answers::NO_NUMBER)
    }
}

// Of a finite sigma, whose sigma - 1 is no NaN that a maximum could hide; j is F's determinant. A NaN in j is in the
// spherical part.
pub fn pos(p: CorotatedLinearElasticity, sigma: [f64; 3], hardening: f64, j: f64) -> Answer
    requires { row_finite sigma ≡ true }
    ensures { result ≡ answer_as (walk_result (pos_from p sigma hardening (num j))) }
{
    let e = stress::positive(stress::less_one(sigma));
    let dev = pos_dev_part(p, e, hardening);
    let sph = spherical_energy(p, j, hardening);
    pos_sum(j, dev, sph)
}
