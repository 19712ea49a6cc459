ghost use Rattle.std.specs.Prelude.{◌≡◌};
ghost use Rattle.physics.specs.Physics.{inv_exact_of, shear_modulus_of, bulk_modulus_of, lambda_of, lame_of, shear_from_lame_of, bulk_from_lame_of};

use crate::Lame;

// The inverse, and 0 of a zero: no threshold.
pub fn inv_exact(e: f64) -> f64
    ensures { result ≡ inv_exact_of e }
{
    if e == 0.0 { 0.0 } else { 1.0 / e }
}

fn lambda(young: f64, poisson: f64) -> f64
    ensures { result ≡ lambda_of young poisson }
{
    young * poisson / ((1.0 + poisson) * (1.0 - 2.0 * poisson))
}

// The Lamé parameters of the Young modulus and the Poisson ratio.
pub fn lame_lambda_mu(young: f64, poisson: f64) -> Lame
    ensures { result ≡ lame_of young poisson }
{
    let l = lambda(young, poisson);
    let m = shear_modulus(young, poisson);
    Lame { lambda: l, mu: m }
}

pub fn shear_modulus(young: f64, poisson: f64) -> f64
    ensures { result ≡ shear_modulus_of young poisson }
{
    young / (2.0 * (1.0 + poisson))
}

pub fn bulk_modulus(young: f64, poisson: f64) -> f64
    ensures { result ≡ bulk_modulus_of young poisson }
{
    young / (3.0 * (1.0 - 2.0 * poisson))
}

pub fn shear_modulus_from_lame(lambda: f64, mu: f64) -> f64
    ensures { result ≡ shear_from_lame_of lambda mu }
{
    mu
}

pub fn bulk_modulus_from_lame(lambda: f64, mu: f64) -> f64
    ensures { result ≡ bulk_from_lame_of lambda mu }
{
    lambda + 2.0 * mu / 3.0
}
