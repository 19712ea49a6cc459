// The rules that all laws share: minimum and maximum, finite and NaN tests, bits and floats, the integer power (RULES,
// sections 3 and 4).
#![tactic(auto)]

mod bits;
mod power;

ghost use Rattle.std.specs.Prelude.{◌≡◌};
ghost use Rattle.numbers.specs.Floats.{finite, is_number, max_of, min_of};

pub use bits::{bits_of, float_of};
pub use power::powi;

// Whether x is neither a NaN nor an infinity.
pub fn is_finite(x: f64) -> bool
    ensures { result ≡ finite x }
{
    let top = 1.0 / 0.0;
    (-top < x) & (x < top)
}

// Whether x is no NaN.
pub fn is_number(x: f64) -> bool
    ensures { result ≡ is_number x }
{
    x == x
}

// The larger; of a NaN and a number the number; of two zeros or two NaNs the second.
pub fn max(a: f64, b: f64) -> f64
    ensures { result ≡ max_of a b }
{
    if b == b {
        if b < a { a } else { b }
    } else {
        if a == a { a } else { b }
    }
}

// The smaller; of a NaN and a number the number; of two zeros or two NaNs the second.
pub fn min(a: f64, b: f64) -> f64
    ensures { result ≡ min_of a b }
{
    if b == b {
        if a < b { a } else { b }
    } else {
        if a == a { a } else { b }
    }
}
