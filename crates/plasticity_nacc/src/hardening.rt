// The hardening step: where the line from the surface's centre to the trial state crosses the surface.
ghost use Rattle.std.specs.Prelude.{◌≡◌, true};
ghost use Rattle.answers.specs.declared.Answer.TheVariants.{Value};
ghost use Rattle.tensor.specs.Axes.{all_of};
ghost use Rattle.walk.specs.Expr.{num, value};
ghost use Rattle.walk.specs.Walk.{holds, root, answer_of};
ghost use Rattle.reason.specs.Traced.{traced, number_as};
ghost use Rattle.plasticity_nacc.specs.Formulas.{quadratic, linear, constant, half};
ghost use Rattle.plasticity_nacc.specs.Projection.{grow_walk, cross_walk, harden_walk, conditions, hardened_walk};
ghost use Rattle.plasticity_nacc.specs.Inner.{size_of, settled};

use crate::{NaccPlasticity, Trial, steps};
use answers::Answer;
use reason::Number;

// The size of x; of either zero 0.0.
fn size(x: f64) -> f64
    ensures { result ≡ size_of x }
{
    if x <= 0.0 { 0.0 - x } else { x }
}

impl NaccPlasticity {
    // At the crossing's pressure x: the new alpha.
    fn grown(self, x: f64, j: f64, alpha: f64) -> Number
        ensures { result ≡ number_as (traced (grow_walk self (num x) j alpha)) }
    {
        let square = self.volume_square(x);
        if numbers::is_number(square) {
            match square_root::sqrt_on_path(size(square)) {
                Answer::Value(v) => {
                    if v > 0.0001 {
                        match logarithm::ln_on_path(j / v) {
                            Answer::Value(l) => Number::Value(alpha + l),
                            Answer::Refused(n) => Number::Refused(n, steps::VOLUME_LOG),
                        }
                    } else {
                        Number::Value(alpha)
                    }
                }
                Answer::Refused(n) => Number::Refused(n, steps::VOLUME),
            }
        } else {
            Number::Refused(answers::NO_NUMBER, steps::VOLUME)
        }
    }

    // The coefficients of the crossing along the direction (d0, d1).
    fn quadratic(self, d0: f64, d1: f64) -> f64
        ensures { result ≡ value (quadratic self (num d0) (num d1)) }
    {
        self.friction * self.friction * d0 * d0 + (1.0 + 2.0 * self.cohesion) * d1 * d1
    }

    fn linear(self, c: f64, p0: f64, d0: f64) -> f64
        ensures { result ≡ value (linear self (num c) (num p0) (num d0)) }
    {
        self.friction * self.friction * d0 * (2.0 * c - p0 + self.cohesion * p0)
    }

    fn constant(self, c: f64, p0: f64) -> f64
        ensures { result ≡ value (constant self (num c) (num p0)) }
    {
        self.friction * self.friction * (c + self.cohesion * p0) * (c - p0)
    }

    // From the centre c along (d0, d1): both crossings are worked, and the one on the trial state's side is taken.
    fn crossed(self, t: Trial, c: f64, d0: f64, d1: f64, alpha: f64) -> Number
        ensures { result ≡ number_as (traced (cross_walk self t (num c) d0 d1 alpha)) }
    {
        let k = self.constant(c, t.p0);
        let b = self.linear(c, t.p0, d0);
        let a = self.quadratic(d0, d1);
        match square_root::sqrt_on_path(b * b - 4.0 * a * k) {
            Answer::Value(r) => {
                let p1 = c + (-b + r) / (2.0 * a) * d0;
                let p2 = c + (-b - r) / (2.0 * a) * d0;
                if numbers::is_number(p1) & numbers::is_number(p2) {
                    let side = (t.p - c) * (p1 - c);
                    if numbers::is_number(side) {
                        if side > 0.0 {
                            self.grown(p1, t.j, alpha)
                        } else {
                            self.grown(p2, t.j, alpha)
                        }
                    } else {
                        Number::Refused(answers::NO_NUMBER, steps::SIDE)
                    }
                } else {
                    Number::Refused(answers::NO_NUMBER, steps::CROSSINGS)
                }
            }
            Answer::Refused(n) => Number::Refused(n, steps::DISCRIMINANT),
        }
    }

    // From the centre, the pressure midway between the tips, to the trial state.
    fn hardening_step(self, d: f64, a: f64, norm: Answer, t: Trial, alpha: f64) -> Number
        requires { (norm ≡ answer_of root t.squares) × (Value a ≡ answer_of root (value (half (num d)))) }
        ensures { result ≡ number_as (traced (harden_walk (num d) self t alpha)) }
    {
        let c = (1.0 - self.cohesion) * t.p0 / 2.0;
        if numbers::is_number(c) {
            match norm {
                Answer::Value(b) => {
                    let x = c - t.p;
                    let y = 0.0 - a * b;
                    match square_root::sqrt_on_path(x * x + y * y) {
                        Answer::Value(distance) => {
                            let d0 = x / distance;
                            let d1 = y / distance;
                            if numbers::is_number(d0) & numbers::is_number(d1) {
                                self.crossed(t, c, d0, d1, alpha)
                            } else {
                                Number::Refused(answers::NO_NUMBER, steps::DIRECTION)
                            }
                        }
                        Answer::Refused(n) => Number::Refused(n, steps::DISTANCE),
                    }
                }
                Answer::Refused(n) => Number::Refused(n, steps::STRESS_NORM),
            }
        } else {
            Number::Refused(answers::NO_NUMBER, steps::CENTRE)
        }
    }

    // The four conditions.
    fn hardens(self, t: Trial) -> bool
        ensures { result ≡ all_of holds (conditions self t) }
    {
        self.hardening_enabled
            & (t.p0 > 0.0001)
            & (t.p < t.p0 - 0.0001)
            & (t.p > -self.cohesion * t.p0 + 0.0001)
    }

    // The new alpha; d is the number of axes, a the root of (6 - d) / 2, norm that of the squares. The numbers compared are known to be no NaN.
    pub fn hardened(self, d: f64, a: f64, norm: Answer, t: Trial, alpha: f64) -> Number
        requires { (settled self t ≡ true) × ((norm ≡ answer_of root t.squares) × (Value a ≡ answer_of root (value (half (num d))))) }
        ensures { result ≡ number_as (traced (hardened_walk (num d) self t alpha)) }
    {
        if self.hardens(t) {
            self.hardening_step(d, a, norm, t, alpha)
        } else {
            Number::Value(alpha)
        }
    }
}
