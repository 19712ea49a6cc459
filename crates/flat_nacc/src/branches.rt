// The trial state and the branch that it takes. A NaN would compare false: it is refused before each test that is made.
ghost use Rattle.std.specs.Prelude.{◌≡◌, true, ◌&&◌};
ghost use Rattle.numbers.specs.Floats.{finite, is_number};
ghost use Rattle.walk.specs.Walk.{walk_result};
ghost use Rattle.plasticity_nacc.specs.Axes.{two_axes};
ghost use Rattle.plasticity_nacc.specs.Projection.{yield_walk, lower_walk, branch_walk, steps_walk};
ghost use Rattle.plasticity_nacc.specs.Inner.{settled};
ghost use Rattle.flat_nacc.specs.Nacc.{stressed_of, stepped_of};

use crate::{Stepped, Stressed, power, surface};
use answers::Answer;
use plasticity::Outcome;
use plasticity_nacc::{NaccPlasticity, Trial};

// Between the tips.
fn yielded(p: NaccPlasticity, t: Trial, s: [f64; 2], sigma: [f64; 2], alpha: f64) -> Stepped
    requires { settled p t ≡ true }
    ensures { result ≡ stepped_of (walk_result (yield_walk two_axes p t s sigma alpha)) }
{
    let y = p.y(2.0, t);
    if numbers::is_number(y) {
        if y < 0.0001 {
            Stepped {
                outcome: Outcome::Untouched,
                sigma,
            }
        } else {
            surface::surface(p, t, s, alpha)
        }
    } else {
        surface::refused_step(answers::NO_NUMBER)
    }
}

// Not above the upper tip.
fn lowered(p: NaccPlasticity, t: Trial, s: [f64; 2], sigma: [f64; 2], alpha: f64) -> Stepped
    requires { is_number t.p0 && is_number t.p ≡ true }
    ensures { result ≡ stepped_of (walk_result (lower_walk two_axes p t s sigma alpha)) }
{
    let low = p.low(t.p0);
    if numbers::is_number(low) {
        if t.p < low {
            match square_root::sqrt_on_path(p.lower_square(t.p0)) {
                Answer::Value(x) => surface::tip(p, x, t.j, alpha),
                Answer::Refused(n) => surface::refused_step(n),
            }
        } else {
            yielded(p, t, s, sigma, alpha)
        }
    } else {
        surface::refused_step(answers::NO_NUMBER)
    }
}

// The branch of a trial state whose pressures are numbers.
fn branched(p: NaccPlasticity, t: Trial, s: [f64; 2], sigma: [f64; 2], alpha: f64) -> Stepped
    requires { is_number t.p0 && (is_number t.squares && is_number t.p) ≡ true }
    ensures { result ≡ stepped_of (walk_result (branch_walk two_axes p t s sigma alpha)) }
{
    if t.p > t.p0 {
        match square_root::sqrt_on_path(p.volume_square(t.p0)) {
            Answer::Value(x) => surface::tip(p, x, t.j, alpha),
            Answer::Refused(n) => surface::refused_step(n),
        }
    } else {
        lowered(p, t, s, sigma, alpha)
    }
}

// w is 1/j.
fn trial(p: NaccPlasticity, w: f64, p0: f64, j: f64, sigma: [f64; 2]) -> Stressed
    ensures { result ≡ stressed_of p w p0 j sigma }
{
    let x = sigma[0];
    let y = sigma[1];
    let mean = (x * x + y * y) / 2.0;
    let a = p.stressed(w, x, mean);
    let b = p.stressed(w, y, mean);
    let s = [a, b];
    let trial = Trial {
        p0,
        j,
        mean,
        squares: a * a + b * b,
        p: p.pressure(j),
    };
    Stressed { trial, s }
}

// The steps in the law's order: p0, the power of j, the trial state, the branch. Alpha is finite: the maximum hides no
// NaN.
pub fn steps(p: NaccPlasticity, sigma: [f64; 2], alpha: f64) -> Stepped
    requires { finite alpha ≡ true }
    ensures { result ≡ stepped_of (walk_result (steps_walk two_axes p sigma alpha)) }
{
    match exponential::sinh_on_path(p.argument(alpha)) {
        Answer::Value(x) => {
            let p0 = p.p0(x);
            if numbers::is_number(p0) {
                let j = flat::product(sigma);
                match power::within(j) {
                    Answer::Value(_) => {
                        let q = trial(p, 1.0 / j, p0, j, sigma);
                        let t = q.trial;
                        let s = q.s;
                        if numbers::is_number(t.squares) & numbers::is_number(t.p) {
                            branched(p, t, s, sigma, alpha)
                        } else {
                            surface::refused_step(answers::NO_NUMBER)
                        }
                    }
                    Answer::Refused(n) => surface::refused_step(n),
                }
            } else {
                surface::refused_step(answers::NO_NUMBER)
            }
        }
        Answer::Refused(n) => surface::refused_step(n),
    }
}
