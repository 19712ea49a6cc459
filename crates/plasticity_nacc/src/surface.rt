// The projection to the yield surface and to a tip of it.
ghost use Rattle.std.specs.Prelude.{◌≡◌, true};
ghost use Rattle.walk.specs.Expr.{num, values};
ghost use Rattle.walk.specs.Walk.{root, answer_of};
ghost use Rattle.reason.specs.Traced.{traced};
ghost use Rattle.plasticity_nacc.specs.Axes.{three_axes};
ghost use Rattle.plasticity_nacc.specs.Formulas.{spread};
ghost use Rattle.plasticity_nacc.specs.Projection.{tip_walk, roots_walk, land_walk, surface_walk};
ghost use Rattle.plasticity_nacc.specs.Inner.{refused_step, as_branch, settled};

use crate::{Branch, NaccPlasticity, Stepped, Trial, steps};
use answers::Answer;
use reason::Number;

// The root of 3/2.
const HALF_ROOT: f64 = 1.224744871391589;

pub fn refused_step(n: u8, step: u8) -> Stepped
    ensures { result ≡ refused_step n step }
{
    let z = [0.0, 0.0, 0.0];
    Stepped {
        branch: Branch::Refused(n, step),
        sigma: z,
        alpha: 0.0,
    }
}

// k times the stress over its norm, and the mean.
fn spread(k: f64, s: [f64; 3], norm: f64, mean: f64) -> [f64; 3]
    ensures { result ≡ values (spread (num k) s (num norm) mean) }
{
    [
        k * (s[0] / norm) + mean,
        k * (s[1] / norm) + mean,
        k * (s[2] / norm) + mean,
    ]
}

// The singular values are the roots of these.
fn roots(b: Branch, e: [f64; 3], alpha: f64) -> Stepped
    ensures { result ≡ as_branch b (traced (roots_walk e alpha)) }
{
    match square_root::sqrt_on_path(e[0]) {
        Answer::Value(x) => match square_root::sqrt_on_path(e[1]) {
            Answer::Value(y) => match square_root::sqrt_on_path(e[2]) {
                Answer::Value(z) => {
                    let sigma = [x, y, z];
                    Stepped {
                        branch: b,
                        sigma,
                        alpha,
                    }
                }
                Answer::Refused(n) => refused_step(n, steps::ROOTS),
            },
            Answer::Refused(n) => refused_step(n, steps::ROOTS),
        },
        Answer::Refused(n) => refused_step(n, steps::ROOTS),
    }
}

impl NaccPlasticity {
    // All singular values alike, at the tip whose volume is x.
    pub(crate) fn tip(self, b: Branch, x: f64, j: f64, alpha: f64) -> Stepped
        ensures { result ≡ as_branch b (traced (tip_walk three_axes self (num x) j alpha)) }
    {
        match thirds::cbrt_on_path(x) {
            Answer::Value(e) => match self.raised(x, j, alpha) {
                Number::Value(a) => {
                    let sigma = [e, e, e];
                    Stepped {
                        branch: b,
                        sigma,
                        alpha: a,
                    }
                }
                Number::Refused(n, step) => refused_step(n, step),
            },
            Answer::Refused(n) => refused_step(n, steps::TIP_SIZE),
        }
    }

    // Onto the surface, once the new alpha is known.
    fn land(self, b: Branch, t: Trial, s: [f64; 3], norm: Answer, alpha: f64) -> Stepped
        requires { norm ≡ answer_of root t.squares }
        ensures { result ≡ as_branch b (traced (land_walk three_axes self t s alpha)) }
    {
        match square_root::sqrt_on_path(-self.y1(t) / self.y0(3.0)) {
            Answer::Value(r) => match thirds::cbrt_squared_on_path(t.j) {
                Answer::Value(w) => {
                    let k = self.scale(r, w);
                    if numbers::is_number(k) {
                        match norm {
                            Answer::Value(n) => {
                                let e = spread(k, s, n, t.mean);
                                if tensor::row_number(e) {
                                    roots(b, e, alpha)
                                } else {
                                    refused_step(answers::NO_NUMBER, steps::SQUARES)
                                }
                            }
                            Answer::Refused(n) => refused_step(n, steps::NORM),
                        }
                    } else {
                        refused_step(answers::NO_NUMBER, steps::SCALE)
                    }
                }
                Answer::Refused(n) => refused_step(n, steps::POWER_BACK),
            },
            Answer::Refused(n) => refused_step(n, steps::RATIO),
        }
    }

    // The hardening step comes first.
    pub(crate) fn surface(self, b: Branch, t: Trial, s: [f64; 3], alpha: f64) -> Stepped
        requires { settled self t ≡ true }
        ensures { result ≡ as_branch b (traced (surface_walk three_axes self t s alpha)) }
    {
        let norm = square_root::sqrt_on_path(t.squares);
        match self.hardened(3.0, HALF_ROOT, norm, t, alpha) {
            Number::Value(a) => self.land(b, t, s, norm, a),
            Number::Refused(n, step) => refused_step(n, step),
        }
    }
}
