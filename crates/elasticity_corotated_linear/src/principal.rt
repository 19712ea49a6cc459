ghost use Rattle.std.specs.Prelude.{◌≡◌, cond};
ghost use Rattle.std.specs.Float.Ieee.{lt};
ghost use Rattle.tensor.specs.Matrix.{one, row_add_of, row_scale_of};
ghost use Rattle.walk.specs.Expr.{num, value, values};
ghost use Rattle.walk.specs.Walk.{walk_result};
ghost use Rattle.walk.specs.Answers.{vector_as};
ghost use Rattle.elasticity_corotated_linear.specs.Principal.{stretched, dev_stresses, spherical_stresses, principal_walk};

use crate::{CorotatedLinearElasticity, stress};
use tensor::VectorAnswer;

fn stretched(p: CorotatedLinearElasticity, h: f64, e: f64, s: f64) -> f64
    ensures { result ≡ value (stretched p h (num e) (num s)) }
{
    2.0 * p.mu * h * e * s
}

fn dev_stresses(p: CorotatedLinearElasticity, h: f64, e: [f64; 3], s: [f64; 3]) -> [f64; 3]
    ensures { result ≡ values (dev_stresses p h e s) }
{
    [
        stretched(p, h, e[0], s[0]),
        stretched(p, h, e[1], s[1]),
        stretched(p, h, e[2], s[2]),
    ]
}

fn spherical_stresses(p: CorotatedLinearElasticity, h: f64, j: f64) -> [f64; 3]
    ensures { result ≡ values (spherical_stresses p h (num j)) }
{
    let x = stress::spherical_part(p, h, j);
    [x, x, x]
}

fn split_sum(c: f64, j: f64, pos: [f64; 3], neg: [f64; 3], sph: [f64; 3]) -> [f64; 3]
    ensures { result ≡ cond (lt j one) (row_add_of (row_scale_of c pos) (row_add_of neg sph)) (row_add_of (row_scale_of c (row_add_of pos sph)) neg) }
{
    if j < 1.0 {
        tensor::row_add(tensor::row_scale(c, pos), tensor::row_add(neg, sph))
    } else {
        tensor::row_add(tensor::row_scale(c, tensor::row_add(pos, sph)), neg)
    }
}

// A NaN in sigma is in j, and one in j in each of the spherical stresses, which either path adds.
pub fn stresses(p: CorotatedLinearElasticity, phase: f64, h: f64, sigma: [f64; 3]) -> VectorAnswer
    ensures { result ≡ vector_as (walk_result (principal_walk p phase h sigma)) }
{
    let j = tensor::product(sigma);
    let e = stress::less_one(sigma);
    let sph = spherical_stresses(p, h, j);
    if phase == 1.0 {
        tensor::answered_vector(tensor::row_add(dev_stresses(p, h, e, sigma), sph))
    } else {
        let pos = dev_stresses(p, h, stress::positive(e), sigma);
        let neg = dev_stresses(p, h, stress::negative(e), sigma);
        tensor::answered_vector(split_sum(stress::phase_coeff(p, phase), j, pos, neg, sph))
    }
}
