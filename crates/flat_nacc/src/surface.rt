// The projection to the yield surface and to a tip of it.
ghost use Rattle.std.specs.Prelude.{◌≡◌, true};
ghost use Rattle.numbers.specs.Floats.{is_number};
ghost use Rattle.tensor.specs.Axes.{all_of};
ghost use Rattle.walk.specs.Expr.{num, values};
ghost use Rattle.walk.specs.Walk.{works, walk_result, root, answer_of};
ghost use Rattle.plasticity_nacc.specs.Axes.{two_axes};
ghost use Rattle.plasticity_nacc.specs.Formulas.{spread};
ghost use Rattle.plasticity_nacc.specs.Projection.{tip_walk, roots_walk, land_walk, surface_walk};
ghost use Rattle.plasticity_nacc.specs.Inner.{settled};
ghost use Rattle.flat_nacc.specs.Nacc.{refused_step, shaped_of};

use crate::{Stepped, power};
use answers::Answer;
use plasticity::Outcome;
use plasticity_nacc::{NaccPlasticity, Trial};
use reason::Number;

// The root of (6 - 2) / 2.
const HALF_ROOT: f64 = 1.4142135623730951;

pub fn refused_step(n: u8) -> Stepped
    ensures { result ≡ refused_step n }
{
    let z = [0.0, 0.0];
    Stepped {
        outcome: Outcome::Refused(n),
        sigma: z,
    }
}

// Whether no entry is a NaN.
fn all_numbers(v: [f64; 2]) -> bool
    ensures { result ≡ all_of is_number v }
{
    numbers::is_number(v[0]) & numbers::is_number(v[1])
}

// k times the stress over its norm, and the mean.
fn spread(k: f64, s: [f64; 2], norm: f64, mean: f64) -> [f64; 2]
    ensures { result ≡ values (spread (num k) s (num norm) mean) }
{
    [k * (s[0] / norm) + mean, k * (s[1] / norm) + mean]
}

// The singular values are the roots of these.
fn roots(e: [f64; 2], alpha: f64) -> Stepped
    ensures { result ≡ shaped_of (walk_result (roots_walk e alpha)) }
{
    match square_root::sqrt_on_path(e[0]) {
        Answer::Value(x) => match square_root::sqrt_on_path(e[1]) {
            Answer::Value(y) => {
                let sigma = [x, y];
                Stepped {
                    outcome: Outcome::Stored(alpha),
                    sigma,
                }
            }
            Answer::Refused(n) => refused_step(n),
        },
        Answer::Refused(n) => refused_step(n),
    }
}

// Both singular values alike, at the tip whose volume is x.
pub fn tip(p: NaccPlasticity, x: f64, j: f64, alpha: f64) -> Stepped
    ensures { result ≡ shaped_of (walk_result (tip_walk two_axes p (num x) j alpha)) }
{
    match power::within(x) {
        Answer::Value(_) => match square_root::sqrt_on_path(x) {
            Answer::Value(e) => match p.raised(x, j, alpha) {
                Number::Value(a) => {
                    let sigma = [e, e];
                    Stepped {
                        outcome: Outcome::Stored(a),
                        sigma,
                    }
                }
                Number::Refused(n, _) => refused_step(n),
            },
            Answer::Refused(n) => refused_step(n),
        },
        Answer::Refused(n) => refused_step(n),
    }
}

// Once the norm is known: the stress spread by k.
fn landed(t: Trial, s: [f64; 2], k: f64, norm: f64, alpha: f64) -> Stepped
    ensures { result ≡ shaped_of (walk_result (works 28 (spread (num k) s (num norm) t.mean) (λ e. roots_walk e alpha))) }
{
    let e = spread(k, s, norm, t.mean);
    if all_numbers(e) {
        roots(e, alpha)
    } else {
        refused_step(answers::NO_NUMBER)
    }
}

// Onto the surface, once the new alpha is known.
fn land(p: NaccPlasticity, t: Trial, s: [f64; 2], norm: Answer, alpha: f64) -> Stepped
    requires { norm ≡ answer_of root t.squares }
    ensures { result ≡ shaped_of (walk_result (land_walk two_axes p t s alpha)) }
{
    match square_root::sqrt_on_path(-p.y1(t) / p.y0(2.0)) {
        Answer::Value(r) => match power::within(t.j) {
            Answer::Value(_) => {
                let k = p.scale(r, t.j);
                if numbers::is_number(k) {
                    match norm {
                        Answer::Value(n) => landed(t, s, k, n, alpha),
                        Answer::Refused(n) => refused_step(n),
                    }
                } else {
                    refused_step(answers::NO_NUMBER)
                }
            }
            Answer::Refused(n) => refused_step(n),
        },
        Answer::Refused(n) => refused_step(n),
    }
}

// The hardening step comes first.
pub fn surface(p: NaccPlasticity, t: Trial, s: [f64; 2], alpha: f64) -> Stepped
    requires { settled p t ≡ true }
    ensures { result ≡ shaped_of (walk_result (surface_walk two_axes p t s alpha)) }
{
    let norm = square_root::sqrt_on_path(t.squares);
    match p.hardened(2.0, HALF_ROOT, norm, t, alpha) {
        Number::Value(a) => land(p, t, s, norm, a),
        Number::Refused(n, _) => refused_step(n),
    }
}
