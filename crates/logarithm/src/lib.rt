// The logarithm (RULES, section 3): the exponent times log 2, and what a factor from a table and five terms of the series give.
#![tactic(auto)]

mod entries;
mod three;

ghost use Rattle.std.specs.Prelude.{◌≡◌, true, Float};
ghost use Rattle.answers.specs.declared.Answer.TheVariants.{Value};
ghost use Rattle.answers.specs.Range.{in_range, bare, on_path};
ghost use Rattle.logarithm.specs.Ln.{ln_ranged};
ghost use Rattle.series.specs.LogNear.{LogNear};
ghost use Rattle.logarithm.specs.Worked.{low, high, exponent_of, rest_of, part_of, fraction_of, ln_of};

use answers::Answer;
use entries::factor;
pub use three::logs_on_path;

// The exponent of a positive number with the bits n. The last digits of 2^52 + e are those of e: no cast, and no branch on the
// sign, which near 1 no processor foresees.
fn exponent(n: u64) -> f64
    ensures { result ≡ exponent_of n }
{
    f64::from_bits(0x4330_0000_0000_0000 + n / 0x10_0000_0000_0000) - 4503599627371519.0
}

// The number from 1 to 2 that the exponent leaves, times a factor, less 1.
fn rest(n: u64, c: f64) -> f64
    ensures { result ≡ rest_of n c }
{
    f64::from_bits(0x3ff0_0000_0000_0000 + n % 0x10_0000_0000_0000) * c - 1.0
}

// log (1 + r), for an r from 0 to 1 / 240.
fn part(r: f64) -> f64
    ensures { result ≡ part_of r }
{
    r + r * r * (-0.5 + r * (0.3333333333333333 + r * (-0.25 + r * 0.2)))
}

// The logarithm of what the exponent leaves of that number.
fn fraction(n: u64) -> f64
    ensures { result ≡ fraction_of n }
{
    let f = factor(n / 0x1000_0000_0000 % 256);
    f.log + part(rest(n, f.c))
}

// ln x, for an x within the range.
fn ln_value(x: f64) -> f64
    requires { in_range low high x ≡ true }
    ensures { result ≡ ln_of x }
{
    let n = f64::to_bits(x);
    exponent(n) * 0.6931471805599453 + fraction(n)
}

fn ln_ranged(x: f64) -> Answer
    ensures { result ≡ ln_ranged x }
{
    if answers::in_range(8.673617379884035e-19, 1152921504606846976.0, x) {
        Answer::Value(ln_value(x))
    } else {
        answers::outside(8.673617379884035e-19, 1152921504606846976.0, x)
    }
}

// ln x, within 2^-45 of the exact value. A NaN or an infinity is refused by 1, a number below the range by 2, above it by 10.
pub fn ln(x: f64) -> Answer
    ensures { (result ≡ bare x (ln_ranged x)) × ((v : Float) → result ≡ Value v → LogNear x v) }
{
    answers::bare(x, ln_ranged(x))
}

// ln x within a law: a NaN is refused by 3, what lies below the range by 2, above it by 10.
pub fn ln_on_path(x: f64) -> Answer
    ensures { result ≡ on_path x (ln_ranged x) }
{
    answers::on_path(x, ln_ranged(x))
}
