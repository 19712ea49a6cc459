ghost use Rattle.std.specs.Prelude.{◌≡◌, cond};
ghost use Rattle.std.specs.Float.Ieee.{le};
ghost use Rattle.tensor.specs.Matrix.{one};
ghost use Rattle.tensor.specs.Answer.{answered};
ghost use Rattle.walk.specs.Expr.{num};
ghost use Rattle.walk.specs.Walk.{walk_result};
ghost use Rattle.walk.specs.Tensor.{worth, rows, times, plus};
ghost use Rattle.walk.specs.Answers.{matrix_as};
ghost use Rattle.elasticity_neo_hookean.specs.Law.{cauchy_green};
ghost use Rattle.elasticity_neo_hookean.specs.Stress.{shear, fpk_volumetric, fpk_from, volumetric, tensile, compressed, kirchhoff_from};

use crate::{NeoHookeanElasticity, plain};
use answers::Answer;
use tensor::MatrixAnswer;

// F F^T.
pub fn cauchy_green_strain(f: [[f64; 3]; 3]) -> [[f64; 3]; 3]
    ensures { result ≡ worth (cauchy_green f) }
{
    tensor::mat_mul(f, tensor::transpose(f))
}

// w is j to the power -2/3, b is F F^T.
fn shear_stress(p: NeoHookeanElasticity, hardening: f64, w: f64, b: [[f64; 3]; 3]) -> [[f64; 3]; 3]
    ensures { result ≡ worth (shear p hardening (num w) b) }
{
    let d = decomposed::plain::deviatoric_part(b);
    tensor::mat_scale(p.mu * hardening * w, d)
}

// g is the inverse of F^T.
fn fpk_volumetric(j: f64, k: f64, g: [[f64; 3]; 3]) -> [[f64; 3]; 3]
    ensures { result ≡ worth (fpk_volumetric (num j) (num k) g) }
{
    tensor::mat_scale(j * k / 2.0 * (j - 1.0 / j), g)
}

// j is F's determinant. A NaN in the inverse or in F F^T comes before the power's refusal; one in j is the power's.
pub fn fpk(p: NeoHookeanElasticity, f: [[f64; 3]; 3], hardening: f64, j: f64) -> MatrixAnswer
    ensures { result ≡ matrix_as (walk_result (fpk_from p f hardening (num j))) }
{
    let k = p.bulk(hardening);
    let g = decomposed::inverse_transpose(f, j);
    let b = cauchy_green_strain(f);
    if numbers::is_number(k) & (decomposed::mat_number(g) & decomposed::mat_number(b)) {
        match thirds::inv_cbrt_squared_on_path(j) {
            Answer::Value(w) => {
                let dev = tensor::mat_mul(shear_stress(p, hardening, w, b), g);
                tensor::answered(tensor::mat_add(dev, fpk_volumetric(j, k, g)))
            }
            Answer::Refused(n) => tensor::refused_matrix(n),
        }
    } else {
        tensor::refused_matrix(answers::NO_NUMBER)
    }
}

fn volumetric_stress(j: f64, k: f64) -> [[f64; 3]; 3]
    ensures { result ≡ worth (volumetric (num j) (num k)) }
{
    tensor::identity_times(k / 2.0 * (j * j - 1.0))
}

// c is the phase's coefficient. Adding the zeros turns -0.0 into 0.0, as in the text.
fn split(c: f64, j: f64, dev: [[f64; 3]; 3], vol: [[f64; 3]; 3]) -> MatrixAnswer
    ensures { result ≡ cond (le one j) (answered (worth (tensile (num c) (rows dev) (rows vol)))) (answered (worth (compressed (num c) (rows dev) (rows vol)))) }
{
    if j >= 1.0 {
        let z = [0.0, 0.0, 0.0];
        let zeros = [z, z, z];
        tensor::answered(tensor::mat_add(tensor::mat_scale(c, tensor::mat_add(dev, vol)), zeros))
    } else {
        tensor::answered(tensor::mat_add(tensor::mat_scale(c, dev), vol))
    }
}

// j is F's determinant. A NaN in F F^T or in k comes before the power's refusal; one in j is the power's.
pub fn kirchhoff(
    p: NeoHookeanElasticity,
    phase: f64,
    hardening: f64,
    f: [[f64; 3]; 3],
    j: f64,
) -> MatrixAnswer
    ensures { result ≡ matrix_as (walk_result (kirchhoff_from p phase hardening f (num j))) }
{
    let k = p.bulk(hardening);
    let b = cauchy_green_strain(f);
    if numbers::is_number(k) & decomposed::mat_number(b) {
        match thirds::inv_cbrt_squared_on_path(j) {
            Answer::Value(w) => {
                let dev = shear_stress(p, hardening, w, b);
                split(plain::phase_coeff(phase), j, dev, volumetric_stress(j, k))
            }
            Answer::Refused(n) => tensor::refused_matrix(n),
        }
    } else {
        tensor::refused_matrix(answers::NO_NUMBER)
    }
}
