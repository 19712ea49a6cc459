// Monaghan's law and its pressure (RULES, section 5).
ghost use Rattle.std.specs.Prelude.{◌≡◌, true, cond};
ghost use Rattle.std.specs.Float.Ieee.{neg};
ghost use Rattle.answers.specs.Refusals.{no_number};
ghost use Rattle.answers.specs.declared.Answer.TheVariants as answer;
ghost use Rattle.numbers.specs.Floats.{is_number, max_of};
ghost use Rattle.walk.specs.Expr.{num, value};
ghost use Rattle.walk.specs.Walk.{walk_result, answer_as};
ghost use Rattle.eos_monaghan_sph.specs.Pressure.{new_of, inputs_finite, unbounded, pressure_steps, pressure_of};

use crate::{Made, MonaghanSphEos};
use answers::Answer;

pub fn inputs_finite(law: MonaghanSphEos, mass: f64, volume: f64, density: f64) -> bool
    ensures { result ≡ inputs_finite law mass volume density }
{
    numbers::is_finite(law.pressure0)
        & numbers::is_finite(law.viscosity)
        & numbers::is_finite(law.max_neg_pressure)
        & numbers::is_finite(mass)
        & numbers::is_finite(volume)
        & numbers::is_finite(density)
}

fn unbounded(law: MonaghanSphEos, ratio: f64) -> f64
    ensures { result ≡ value (unbounded law (num ratio)) }
{
    let power = numbers::powi(ratio, law.gamma);
    law.pressure0 * (power - 1.0)
}

// At least minus the largest negative pressure.
fn bounded(law: MonaghanSphEos, p: f64) -> Answer
    ensures { result ≡ cond (is_number p) (answer.Value (max_of p (neg law.max_neg_pressure))) (answer.Refused no_number) }
{
    if numbers::is_number(p) {
        Answer::Value(numbers::max(p, -law.max_neg_pressure))
    } else {
        Answer::Refused(answers::NO_NUMBER)
    }
}

// The pressure, which may be infinite, or 3 where a NaN arises.
pub fn worked_pressure(law: MonaghanSphEos, mass: f64, volume: f64, density: f64) -> Answer
    requires { inputs_finite law mass volume density ≡ true }
    ensures { result ≡ answer_as (walk_result (pressure_steps law mass volume density)) }
{
    let density0 = mass / volume;
    let ratio = density / density0;
    if numbers::is_number(ratio) {
        bounded(law, unbounded(law, ratio))
    } else {
        Answer::Refused(answers::NO_NUMBER)
    }
}

impl MonaghanSphEos {
    pub const MAX_NEG_PRESSURE: f64 = 1.0;

    pub fn new(pressure: f64, gamma: u32, viscosity: f64) -> Made
        ensures { result ≡ new_of pressure gamma viscosity }
    {
        if numbers::is_finite(pressure) & numbers::is_finite(viscosity) {
            let law = MonaghanSphEos {
                pressure0: pressure,
                gamma,
                viscosity,
                max_neg_pressure: MonaghanSphEos::MAX_NEG_PRESSURE,
            };
            Made::Law(law)
        } else {
            Made::Refused(answers::NOT_FINITE)
        }
    }

    pub fn is_fluid(self) -> bool
        ensures { result ≡ true }
    {
        true
    }

    pub fn pressure(self, mass: f64, volume: f64, density: f64) -> Answer
        ensures { result ≡ pressure_of self mass volume density }
    {
        if inputs_finite(self, mass, volume, density) {
            answers::finite_answer(worked_pressure(self, mass, volume, density))
        } else {
            Answer::Refused(answers::NOT_FINITE)
        }
    }
}
