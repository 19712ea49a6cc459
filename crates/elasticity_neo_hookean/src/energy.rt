ghost use Rattle.std.specs.Prelude.{◌≡◌, cond};
ghost use Rattle.std.specs.Float.Ieee.{le, lt};
ghost use Rattle.answers.specs.Answer.{answered_of};
ghost use Rattle.tensor.specs.Matrix.{add, mul, zero, one};
ghost use Rattle.walk.specs.Expr.{num, value};
ghost use Rattle.walk.specs.Walk.{walk_result, answer_as};
ghost use Rattle.walk.specs.Tensor.{worth};
ghost use Rattle.elasticity_neo_hookean.specs.Law.{coefficient};
ghost use Rattle.elasticity_neo_hookean.specs.Energy.{volumetric_energy, kappa, stretch, deviatoric_energy, below, energy_from, pos_deviatoric, pos_from};

use crate::{NeoHookeanElasticity, plain, stress};
use answers::Answer;

// q is the square of j, l its logarithm.
fn volumetric_energy(k: f64, q: f64, l: f64) -> f64
    ensures { result ≡ value (volumetric_energy (num k) (num q) (num l)) }
{
    k / 2.0 * ((q - 1.0) / 2.0 - l)
}

// The bulk modulus as `elastic_energy_density` groups it.
fn kappa(p: NeoHookeanElasticity, hardening: f64) -> f64
    ensures { result ≡ value (kappa p hardening) }
{
    2.0 / 3.0 * (p.mu * hardening) + p.lambda * hardening
}

// w is j to the power -1/3.
fn stretch(w: f64, f: [[f64; 3]; 3]) -> [[f64; 3]; 3]
    ensures { result ≡ worth (stretch (num w) f) }
{
    let a = tensor::mat_scale(w, f);
    tensor::mat_mul(tensor::transpose(a), a)
}

fn deviatoric_energy(p: NeoHookeanElasticity, hardening: f64, s: [[f64; 3]; 3]) -> f64
    ensures { result ≡ value (deviatoric_energy p hardening s) }
{
    p.mu * hardening / 2.0 * (decomposed::trace(s) - 3.0)
}

// Below j = 1 the volumetric part is the tensile one, as the text has it; with one split for stress and energy the
// deviatoric part.
fn energy_sum(one_split: bool, c: f64, j: f64, dev: f64, vol: f64) -> Answer
    ensures { result ≡ cond (le one j) (answered_of (add (mul c (add vol dev)) zero)) (answered_of (value (below one_split (num c) (num dev) (num vol)))) }
{
    if j >= 1.0 {
        answers::answered(c * (vol + dev) + 0.0)
    } else if one_split {
        answers::answered(c * dev + vol)
    } else {
        answers::answered(c * vol + dev)
    }
}

// j is F's determinant. A NaN in k comes before the power's refusal; one in j is the power's.
pub fn density(
    one_split: bool,
    p: NeoHookeanElasticity,
    phase: f64,
    hardening: f64,
    f: [[f64; 3]; 3],
    j: f64,
) -> Answer
    ensures { result ≡ answer_as (walk_result (energy_from one_split p phase hardening f (num j))) }
{
    let k = kappa(p, hardening);
    if numbers::is_number(k) {
        match thirds::inv_cbrt_on_path(j) {
            Answer::Value(w) => {
                let s = stretch(w, f);
                if decomposed::mat_number(s) {
                    match logarithm::ln_on_path(j) {
                        Answer::Value(l) => {
                            let vol = volumetric_energy(k, numbers::powi(j, 2), l);
                            let dev = deviatoric_energy(p, hardening, s);
                            energy_sum(one_split, plain::phase_coeff(phase), j, dev, vol)
                        }
                        Answer::Refused(n) => Answer::Refused(n),
                    }
                } else {
                    Answer::Refused(answers::NO_NUMBER)
                }
            }
            Answer::Refused(n) => Answer::Refused(n),
        }
    } else {
        Answer::Refused(answers::NO_NUMBER)
    }
}

// w is j to the power -2/3, b is F F^T.
fn pos_deviatoric(p: NeoHookeanElasticity, hardening: f64, w: f64, b: [[f64; 3]; 3]) -> f64
    ensures { result ≡ value (pos_deviatoric p hardening (num w) b) }
{
    hardening * p.mu / 2.0 * (decomposed::trace(b) * w - 3.0)
}

// From j = 1 up the phase itself multiplies, not its coefficient, as the text has it.
fn pos_sum(phase: f64, j: f64, dev: f64, vol: f64) -> Answer
    ensures { result ≡ cond (lt j one) (answered_of (mul dev (value (coefficient phase)))) (answered_of (mul (add dev vol) phase)) }
{
    if j < 1.0 {
        answers::answered(dev * plain::phase_coeff(phase))
    } else {
        answers::answered((dev + vol) * phase)
    }
}

// j is F's determinant. A NaN in F F^T or in k comes before the power's refusal; one in j is the power's.
pub fn pos(p: NeoHookeanElasticity, phase: f64, hardening: f64, f: [[f64; 3]; 3], j: f64) -> Answer
    ensures { result ≡ answer_as (walk_result (pos_from p phase hardening f (num j))) }
{
    let k = p.bulk(hardening);
    let b = stress::cauchy_green_strain(f);
    if numbers::is_number(k) & decomposed::mat_number(b) {
        match thirds::inv_cbrt_squared_on_path(j) {
            Answer::Value(w) => match logarithm::ln_on_path(j) {
                Answer::Value(l) => {
                    let vol = volumetric_energy(k, j * j, l);
                    if numbers::is_number(vol) {
                        pos_sum(phase, j, pos_deviatoric(p, hardening, w, b), vol)
                    } else {
                        Answer::Refused(answers::NO_NUMBER)
                    }
                }
                Answer::Refused(n) => Answer::Refused(n),
            },
            Answer::Refused(n) => Answer::Refused(n),
        }
    } else {
        Answer::Refused(answers::NO_NUMBER)
    }
}
