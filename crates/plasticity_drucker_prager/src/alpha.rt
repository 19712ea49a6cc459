ghost use Rattle.std.specs.Prelude.{◌≡◌};
ghost use Rattle.walk.specs.Walk.{walk_result, answer_as};
ghost use Rattle.reason.specs.Traced.{traced, number_as};
ghost use Rattle.plasticity_drucker_prager.specs.Alpha.{alpha_walk, alpha_call};

use crate::{DruckerPragerPlasticity, steps};
use answers::Answer;
use reason::Number;

// The root of 2/3, worked once for all.
const ROOT: f64 = 0.816496580927726;

impl DruckerPragerPlasticity {
    // The slope of the cone at the hardening q, as a step of the law: a NaN is 3.
    pub fn alpha_on_path(self, q: f64) -> Number
        ensures { result ≡ number_as (traced (alpha_walk self q)) }
    {
        match exponential::exp_on_path(-self.h2 * q) {
            Answer::Value(e) => {
                match sine::sin_on_path(self.h0 + (self.h1 * q - self.h3) * e) {
                    Answer::Value(s) => {
                        let a = ROOT * (2.0 * s) / (3.0 - s);
                        if numbers::is_number(a) {
                            Number::Value(a)
                        } else {
                            Number::Refused(answers::NO_NUMBER, steps::SLOPE)
                        }
                    }
                    Answer::Refused(n) => Number::Refused(n, steps::SINE),
                }
            }
            Answer::Refused(n) => Number::Refused(n, steps::DECAY),
        }
    }

    // The slope of the cone at the hardening q.
    pub fn alpha(self, q: f64) -> Answer
        ensures { result ≡ answer_as (walk_result (alpha_call self q)) }
    {
        if self.parameters_finite() & numbers::is_finite(q) {
            match self.alpha_on_path(q) {
                Number::Value(a) => {
                    if numbers::is_finite(a) {
                        Answer::Value(a)
                    } else {
                        Answer::Refused(answers::NO_NUMBER)
                    }
                }
                Number::Refused(n, _) => Answer::Refused(n),
            }
        } else {
            Answer::Refused(answers::NOT_FINITE)
        }
    }
}
