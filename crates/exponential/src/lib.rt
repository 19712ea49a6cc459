// The exponential and the hyperbolic sine (RULES, section 3). x is k ln 2 / 128 and a rest: the exponential is 2^(k / 128) from a table,
// times four terms of the series.
#![tactic(auto)]

mod entries;
mod hyperbolic;
mod three;

ghost use Rattle.std.specs.Prelude.{◌≡◌, true, Float};
ghost use Rattle.answers.specs.declared.Answer.TheVariants.{Value};
ghost use Rattle.exact.specs.Units.{sgn};
ghost use Rattle.series.specs.ExpNear.{ExpNear};
ghost use Rattle.answers.specs.Range.{in_range, bare, on_path};
ghost use Rattle.exponential.specs.Exp.{exp_ranged};
ghost use Rattle.exponential.specs.Worked.{low, high, Sized, nearest_of, rest_of, series_of, times_of, exp_of};

use answers::Answer;
use entries::power;
pub use hyperbolic::{sinh, sinh_on_path};
pub use three::exps_on_path;

// k + 1.5 * 2^52 + 1023 * 128, for the whole number k nearest to 128 x / ln 2.
fn nearest(x: f64) -> f64
    ensures { result ≡ nearest_of x }
{
    x * 184.6649652337873 + 6755399441186688.0
}

// x less k ln 2 / 128. k times the first part is exact.
fn rest(x: f64, k: f64) -> f64
    ensures { result ≡ rest_of x k }
{
    x - k * 0.005415212347998022 - k * 1.2655086083325438e-13
}

// exp r - 1, for a small r, by four terms.
fn series(r: f64) -> f64
    ensures { result ≡ series_of r }
{
    r + r * r * (0.5 + r * (0.16666666666666666 + r * 0.041666666666666664))
}

// s (1 + p).
fn times(s: f64, p: f64) -> f64
    ensures { result ≡ times_of s p }
{
    s + s * p
}

// Whether x has the sign.
fn negative(x: f64) -> bool
    requires { in_range low high x ≡ true }
    ensures { result ≡ sgn x }
{
    0x8000_0000_0000_0000 <= f64::to_bits(x)
}

// exp x, for an x of at most 700 in size: within 2^-48 of the exact value, times that value.
fn exp_value(x: f64) -> f64
    requires { Sized x }
    ensures { result ≡ exp_of x }
{
    let t = nearest(x);
    let n = f64::to_bits(t);
    let s = f64::from_bits((n / 128 << 52) + power(n % 128));
    times(s, series(rest(x, t - 6755399441186688.0)))
}

// exp x within the range; outside it the refusal of its side.
fn exp_ranged(x: f64) -> Answer
    ensures { result ≡ exp_ranged x }
{
    if answers::in_range(-700.0, 700.0, x) {
        Answer::Value(exp_value(x))
    } else {
        answers::outside(-700.0, 700.0, x)
    }
}

// exp x, within 2^-45 of the exact value, times that value. A NaN or an infinity is refused by 1, a number below the range by 2, above it by 10.
pub fn exp(x: f64) -> Answer
    ensures { (result ≡ bare x (exp_ranged x)) × ((v : Float) → result ≡ Value v → ExpNear x v) }
{
    answers::bare(x, exp_ranged(x))
}

// exp x within a law: a NaN is refused by 3, what lies below the range by 2, above it by 10.
pub fn exp_on_path(x: f64) -> Answer
    ensures { result ≡ on_path x (exp_ranged x) }
{
    answers::on_path(x, exp_ranged(x))
}
