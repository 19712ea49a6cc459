ghost use Rattle.std.specs.Prelude.{◌≡◌, true, ◌&&◌};
ghost use Rattle.numbers.specs.Constants.{one};
ghost use Rattle.numbers.specs.Floats.{finite, is_number, max_of};
ghost use Rattle.tensor.specs.Matrix.{dot_of};
ghost use Rattle.tensor.specs.Finite.{row_finite};
ghost use Rattle.walk.specs.Expr.{num, value};
ghost use Rattle.walk.specs.Walk.{walk_result, answer_as, asked};
ghost use Rattle.eos_monaghan_sph.specs.Timestep.{argument, c_square, cfl_steps, smaller_steps, single_steps, timestep_steps, timestep_bound_of};

use crate::{MonaghanSphEos, pressure};
use answers::Answer;

// What the single-particle root is taken of. 6 is for quadratic splines, 3 the number of axes.
fn argument(j: f64, mass: f64, volume: f64, p: f64) -> f64
    ensures { result ≡ value (argument j mass volume (num p)) }
{
    let density0 = mass / volume;
    let pressure = -p;
    density0 * (j - 1.0) / (6.0 * pressure * 3.0)
}

// Squares of finite numbers have no NaN that the maximum could hide.
fn c_square(velocity: [f64; 3]) -> f64
    ensures { result ≡ value (c_square (num (max_of (dot_of velocity velocity) one))) }
{
    numbers::max(tensor::dot(velocity, velocity), 1.0) / 0.1
}

// The Courant-Friedrichs-Lewy step.
fn cfl(velocity: [f64; 3], width: f64) -> Answer
    requires { row_finite velocity ≡ true }
    ensures { result ≡ answer_as (walk_result (cfl_steps velocity width)) }
{
    match square_root::sqrt_on_path(c_square(velocity)) {
        Answer::Value(c) => answers::answered(width / c),
        Answer::Refused(n) => Answer::Refused(n),
    }
}

// The smaller of that and the single-particle step. Neither is a NaN that the minimum could hide.
fn smaller(velocity: [f64; 3], width: f64, single: f64) -> Answer
    requires { row_finite velocity && finite width && is_number single ≡ true }
    ensures { result ≡ answer_as (walk_result (smaller_steps velocity width single)) }
{
    match square_root::sqrt_on_path(c_square(velocity)) {
        Answer::Value(c) => answers::answered(numbers::min(single, width / c)),
        Answer::Refused(n) => Answer::Refused(n),
    }
}

// lead is the cell's width over j, a what the root is taken of.
fn single(velocity: [f64; 3], width: f64, lead: f64, a: f64) -> Answer
    requires { row_finite velocity && finite width ≡ true }
    ensures { result ≡ answer_as (walk_result (single_steps velocity width lead (num a))) }
{
    match square_root::sqrt_on_path(a) {
        Answer::Value(r) => {
            let step = lead * r;
            if numbers::is_number(step) {
                smaller(velocity, width, step)
            } else {
                Answer::Refused(answers::NO_NUMBER)
            }
        }
        Answer::Refused(n) => Answer::Refused(n),
    }
}

// There is no single-particle step where the root's argument is negative or a NaN.
fn bound(j: f64, mass: f64, volume: f64, velocity: [f64; 3], width: f64, p: f64) -> Answer
    requires { row_finite velocity && finite width ≡ true }
    ensures { result ≡ answer_as (walk_result (timestep_steps j mass volume velocity width p)) }
{
    let lead = width / j;
    let a = argument(j, mass, volume, p);
    if numbers::is_number(lead) {
        if 0.0 <= a {
            single(velocity, width, lead, a)
        } else {
            cfl(velocity, width)
        }
    } else {
        Answer::Refused(answers::NO_NUMBER)
    }
}

fn bound_from(
    j: f64,
    mass: f64,
    volume: f64,
    velocity: [f64; 3],
    width: f64,
    pressure: Answer,
) -> Answer
    requires { row_finite velocity && finite width ≡ true }
    ensures { result ≡ answer_as (asked pressure (λ p. walk_result (timestep_steps j mass volume velocity width p))) }
{
    match pressure {
        Answer::Value(p) => bound(j, mass, volume, velocity, width, p),
        Answer::Refused(n) => Answer::Refused(n),
    }
}

impl MonaghanSphEos {
    // j is the determinant of the fluid's deformation gradient, width a cell's.
    pub fn timestep_bound(
        self,
        j: f64,
        mass: f64,
        volume: f64,
        density: f64,
        velocity: [f64; 3],
        width: f64,
    ) -> Answer
        ensures { result ≡ timestep_bound_of self j mass volume density velocity width }
    {
        if pressure::inputs_finite(self, mass, volume, density)
            & numbers::is_finite(j)
            & tensor::row_finite(velocity)
            & numbers::is_finite(width)
        {
            let p = pressure::worked_pressure(self, mass, volume, density);
            bound_from(j, mass, volume, velocity, width, p)
        } else {
            Answer::Refused(answers::NOT_FINITE)
        }
    }
}
