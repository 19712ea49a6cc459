// The trial state and the branch that it takes. A NaN would compare false: it is refused before each test that is made.
ghost use Rattle.std.specs.Prelude.{◌≡◌, true, ◌&&◌};
ghost use Rattle.numbers.specs.Floats.{finite, is_number};
ghost use Rattle.reason.specs.Traced.{traced};
ghost use Rattle.plasticity_nacc.specs.Axes.{three_axes, dim_of};
ghost use Rattle.plasticity_nacc.specs.Formulas.{stressed_of};
ghost use Rattle.plasticity_nacc.specs.Projection.{yield_walk, lower_walk, branch_walk, steps_walk};
ghost use Rattle.plasticity_nacc.specs.Inner.{stepped_of, settled};

use crate::{Branch, NaccPlasticity, Stepped, Stressed, Trial, steps, surface};
use answers::Answer;

impl NaccPlasticity {
    // Between the tips.
    fn yielded(self, t: Trial, s: [f64; 3], sigma: [f64; 3], alpha: f64) -> Stepped
        requires { settled self t ≡ true }
        ensures { result ≡ stepped_of (traced (yield_walk three_axes self t s sigma alpha)) }
    {
        let y = self.y(3.0, t);
        if numbers::is_number(y) {
            if y < 0.0001 {
                Stepped {
                    branch: Branch::Inside(y, 0.0001),
                    sigma,
                    alpha,
                }
            } else {
                self.surface(Branch::Surface(y, 0.0001), t, s, alpha)
            }
        } else {
            surface::refused_step(answers::NO_NUMBER, steps::YIELD)
        }
    }

    // Not above the upper tip.
    fn lowered(self, t: Trial, s: [f64; 3], sigma: [f64; 3], alpha: f64) -> Stepped
        requires { is_number t.p0 && is_number t.p ≡ true }
        ensures { result ≡ stepped_of (traced (lower_walk three_axes self t s sigma alpha)) }
    {
        let low = self.low(t.p0);
        if numbers::is_number(low) {
            if t.p < low {
                match square_root::sqrt_on_path(self.lower_square(t.p0)) {
                    Answer::Value(x) => self.tip(Branch::Lower(t.p, low), x, t.j, alpha),
                    Answer::Refused(n) => surface::refused_step(n, steps::TIP_VOLUME),
                }
            } else {
                self.yielded(t, s, sigma, alpha)
            }
        } else {
            surface::refused_step(answers::NO_NUMBER, steps::LOWER)
        }
    }

    // The branch of a trial state whose pressures are numbers.
    fn branched(self, t: Trial, s: [f64; 3], sigma: [f64; 3], alpha: f64) -> Stepped
        requires { is_number t.p0 && (is_number t.squares && is_number t.p) ≡ true }
        ensures { result ≡ stepped_of (traced (branch_walk three_axes self t s sigma alpha)) }
    {
        if t.p > t.p0 {
            match square_root::sqrt_on_path(self.volume_square(t.p0)) {
                Answer::Value(x) => self.tip(Branch::Upper(t.p, t.p0), x, t.j, alpha),
                Answer::Refused(n) => surface::refused_step(n, steps::TIP_VOLUME),
            }
        } else {
            self.lowered(t, s, sigma, alpha)
        }
    }

    // w is j to the power -2/3.
    fn trial(self, w: f64, p0: f64, j: f64, sigma: [f64; 3]) -> Stressed
        ensures { result ≡ stressed_of (dim_of three_axes) self w p0 j sigma }
    {
        let x = sigma[0];
        let y = sigma[1];
        let z = sigma[2];
        let mean = (x * x + y * y + z * z) / 3.0;
        let a = self.stressed(w, x, mean);
        let b = self.stressed(w, y, mean);
        let c = self.stressed(w, z, mean);
        let s = [a, b, c];
        let trial = Trial {
            p0,
            j,
            mean,
            squares: a * a + b * b + c * c,
            p: self.pressure(j),
        };
        Stressed { trial, s }
    }

    // The steps in the law's order: p0, the power of j, the trial state, the branch. Alpha is finite: the maximum hides no
    // NaN.
    pub(crate) fn steps(self, sigma: [f64; 3], alpha: f64) -> Stepped
        requires { finite alpha ≡ true }
        ensures { result ≡ stepped_of (traced (steps_walk three_axes self sigma alpha)) }
    {
        match exponential::sinh_on_path(self.argument(alpha)) {
            Answer::Value(x) => {
                let p0 = self.p0(x);
                if numbers::is_number(p0) {
                    let j = tensor::product(sigma);
                    match thirds::inv_cbrt_squared_on_path(j) {
                        Answer::Value(w) => {
                            let q = self.trial(w, p0, j, sigma);
                            let t = q.trial;
                            let s = q.s;
                            if numbers::is_number(t.squares) & numbers::is_number(t.p) {
                                self.branched(t, s, sigma, alpha)
                            } else {
                                surface::refused_step(answers::NO_NUMBER, steps::TRIAL)
                            }
                        }
                        Answer::Refused(n) => surface::refused_step(n, steps::POWER),
                    }
                } else {
                    surface::refused_step(answers::NO_NUMBER, steps::P0)
                }
            }
            Answer::Refused(n) => surface::refused_step(n, steps::SINH),
        }
    }
}
