ghost use Rattle.std.specs.Prelude.{◌≡◌, true, cond, map};
ghost use Rattle.std.specs.Float.Ieee.{lt};
ghost use Rattle.numbers.specs.Floats.{max_of, min_of};
ghost use Rattle.tensor.specs.Matrix.{zero, one};
ghost use Rattle.tensor.specs.Finite.{row_finite};
ghost use Rattle.walk.specs.Expr.{num, value, values};
ghost use Rattle.walk.specs.Walk.{walk_result};
ghost use Rattle.walk.specs.Tensor.{worth, rows};
ghost use Rattle.walk.specs.Answers.{matrix_as};
ghost use Rattle.elasticity_corotated_linear.specs.Stress.{less_one, phase_coeff, dev_stress, spherical_part, spherical_stress, below, above, stress_from};

use crate::CorotatedLinearElasticity;
use tensor::MatrixAnswer;

pub fn less_one(s: [f64; 3]) -> [f64; 3]
    ensures { result ≡ values (less_one s) }
{
    [s[0] - 1.0, s[1] - 1.0, s[2] - 1.0]
}

pub fn positive(e: [f64; 3]) -> [f64; 3]
    ensures { result ≡ map (λ x. max_of x zero) e }
{
    [
        numbers::max(e[0], 0.0),
        numbers::max(e[1], 0.0),
        numbers::max(e[2], 0.0),
    ]
}

pub fn negative(e: [f64; 3]) -> [f64; 3]
    ensures { result ≡ map (λ x. min_of x zero) e }
{
    [
        numbers::min(e[0], 0.0),
        numbers::min(e[1], 0.0),
        numbers::min(e[2], 0.0),
    ]
}

// What the tensile part is multiplied by.
pub fn phase_coeff(p: CorotatedLinearElasticity, phase: f64) -> f64
    ensures { result ≡ value (phase_coeff p phase) }
{
    if p.split_stress_on_failure & (phase == 0.0) {
        0.0
    } else {
        1.0
    }
}

pub fn spherical_part(p: CorotatedLinearElasticity, hardening: f64, j: f64) -> f64
    ensures { result ≡ value (spherical_part p hardening (num j)) }
{
    p.lambda * hardening * (j - 1.0) * j
}

// The recomposed matrix is scaled before it is multiplied by F^T, as the text has it on both paths.
fn dev_stress(
    p: CorotatedLinearElasticity,
    hardening: f64,
    f: [[f64; 3]; 3],
    u: [[f64; 3]; 3],
    e: [f64; 3],
    vt: [[f64; 3]; 3],
) -> [[f64; 3]; 3]
    ensures { result ≡ worth (dev_stress p hardening f u e vt) }
{
    let scaled = tensor::mat_scale(2.0 * p.mu * hardening, tensor::recompose(u, e, vt));
    tensor::mat_mul(scaled, tensor::transpose(f))
}

fn spherical_stress(p: CorotatedLinearElasticity, hardening: f64, j: f64) -> [[f64; 3]; 3]
    ensures { result ≡ worth (spherical_stress p hardening (num j)) }
{
    tensor::identity_times(spherical_part(p, hardening, j))
}

fn split_sum(
    c: f64,
    j: f64,
    pos: [[f64; 3]; 3],
    neg: [[f64; 3]; 3],
    sph: [[f64; 3]; 3],
) -> [[f64; 3]; 3]
    ensures { result ≡ cond (lt j one) (worth (below (num c) (rows pos) (rows neg) (rows sph))) (worth (above (num c) (rows pos) (rows neg) (rows sph))) }
{
    if j < 1.0 {
        tensor::mat_add(tensor::mat_scale(c, pos), tensor::mat_add(neg, sph))
    } else {
        tensor::mat_add(tensor::mat_scale(c, tensor::mat_add(pos, sph)), neg)
    }
}

// Of a finite sigma, whose sigma - 1 is no NaN that a maximum or a minimum could hide; j is F's determinant. A NaN in j is in
// each entry of the spherical stress, which either path adds.
pub fn kirchhoff(
    p: CorotatedLinearElasticity,
    phase: f64,
    hardening: f64,
    f: [[f64; 3]; 3],
    u: [[f64; 3]; 3],
    sigma: [f64; 3],
    vt: [[f64; 3]; 3],
    j: f64,
) -> MatrixAnswer
    requires { row_finite sigma ≡ true }
    ensures { result ≡ matrix_as (walk_result (stress_from p phase hardening f u sigma vt (num j))) }
{
    let e = less_one(sigma);
    let sph = spherical_stress(p, hardening, j);
    if phase == 1.0 {
        tensor::answered(tensor::mat_add(dev_stress(p, hardening, f, u, e, vt), sph))
    } else {
        let pos = dev_stress(p, hardening, f, u, positive(e), vt);
        let neg = dev_stress(p, hardening, f, u, negative(e), vt);
        tensor::answered(split_sum(phase_coeff(p, phase), j, pos, neg, sph))
    }
}
