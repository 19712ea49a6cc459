ghost use Rattle.std.specs.Prelude.{◌≡◌, ◌&&◌};
ghost use Rattle.numbers.specs.Floats.{finite};
ghost use Rattle.answers.specs.Answer.{answered_of, given};
ghost use Rattle.physics.specs.Physics.{inv_exact_of, lambda_of, shear_modulus_of, bulk_modulus_of, shear_from_lame_of, bulk_from_lame_of};
ghost use Rattle.answers.specs.Answer.{pair_of, given_pair};

use crate::plain;
use answers::{Answer, Pair};

pub fn inv_exact(e: f64) -> Answer
    ensures { result ≡ given (finite e) (answered_of (inv_exact_of e)) }
{
    if numbers::is_finite(e) {
        answers::answered(plain::inv_exact(e))
    } else {
        Answer::Refused(answers::NOT_FINITE)
    }
}

// lambda and mu.
pub fn lame_lambda_mu(young: f64, poisson: f64) -> Pair
    ensures { result ≡ given_pair (finite young && finite poisson) (pair_of (lambda_of young poisson) (shear_modulus_of young poisson)) }
{
    if numbers::is_finite(young) & numbers::is_finite(poisson) {
        let l = plain::lame_lambda_mu(young, poisson);
        answers::answered_pair(l.lambda, l.mu)
    } else {
        Pair::Refused(answers::NOT_FINITE)
    }
}

pub fn shear_modulus(young: f64, poisson: f64) -> Answer
    ensures { result ≡ given (finite young && finite poisson) (answered_of (shear_modulus_of young poisson)) }
{
    if numbers::is_finite(young) & numbers::is_finite(poisson) {
        answers::answered(plain::shear_modulus(young, poisson))
    } else {
        Answer::Refused(answers::NOT_FINITE)
    }
}

pub fn bulk_modulus(young: f64, poisson: f64) -> Answer
    ensures { result ≡ given (finite young && finite poisson) (answered_of (bulk_modulus_of young poisson)) }
{
    if numbers::is_finite(young) & numbers::is_finite(poisson) {
        answers::answered(plain::bulk_modulus(young, poisson))
    } else {
        Answer::Refused(answers::NOT_FINITE)
    }
}

pub fn shear_modulus_from_lame(lambda: f64, mu: f64) -> Answer
    ensures { result ≡ given (finite lambda && finite mu) (answered_of (shear_from_lame_of lambda mu)) }
{
    if numbers::is_finite(lambda) & numbers::is_finite(mu) {
        answers::answered(plain::shear_modulus_from_lame(lambda, mu))
    } else {
        Answer::Refused(answers::NOT_FINITE)
    }
}

pub fn bulk_modulus_from_lame(lambda: f64, mu: f64) -> Answer
    ensures { result ≡ given (finite lambda && finite mu) (answered_of (bulk_from_lame_of lambda mu)) }
{
    if numbers::is_finite(lambda) & numbers::is_finite(mu) {
        answers::answered(plain::bulk_modulus_from_lame(lambda, mu))
    } else {
        Answer::Refused(answers::NOT_FINITE)
    }
}
