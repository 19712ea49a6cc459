// The powers 1/3, 2/3, -1/3 and -2/3 of a number from 2^-60 to 2^60 (RULES, section 3).
#![tactic(auto)]

ghost use Rattle.std.specs.Prelude.{◌≡◌, ◌≤◌, Float};
ghost use Rattle.exact.specs.Units.{L, mag, Fin64};
ghost use Rattle.answers.specs.declared.Answer.TheVariants.{Value};
ghost use Rattle.answers.specs.Range.{ranged, bare, on_path};
ghost use Rattle.series.specs.ThirdsNear.{CbrtNear, CbrtSquaredNear, InvCbrtNear, InvCbrtSquaredNear};
ghost use Rattle.thirds.specs.Thirds.{low, high, power_of, cbrt_ranged, cbrt_squared_ranged, inv_cbrt_ranged, inv_cbrt_squared_ranged};

use answers::Answer;

// x^c, by the logarithm and the exponential: the logarithm's range is the powers'.
fn power_on_path(x: f64, c: f64) -> Answer
    requires { Fin64 c × (mag c ≤ L) }
    ensures { result ≡ on_path x (ranged low high x (power_of x c)) }
{
    match logarithm::ln_on_path(x) {
        Answer::Value(l) => exponential::exp_on_path(l * c),
        Answer::Refused(n) => Answer::Refused(n),
    }
}

// x^(1/3), within 2^-45 times the exact value. A NaN or an infinity is refused by 1, a number below the range by 2, above it by 10.
pub fn cbrt(x: f64) -> Answer
    ensures { (result ≡ bare x (cbrt_ranged x)) × ((v : Float) → result ≡ Value v → CbrtNear x v) }
{
    answers::bare(x, power_on_path(x, 0.3333333333333333))
}

// The same within a law: a NaN is refused by 3, what lies below the range by 2, above it by 10.
pub fn cbrt_on_path(x: f64) -> Answer
    ensures { result ≡ on_path x (cbrt_ranged x) }
{
    power_on_path(x, 0.3333333333333333)
}

// x^(2/3), within 2^-45 times the exact value. A NaN or an infinity is refused by 1, a number below the range by 2, above it by 10.
pub fn cbrt_squared(x: f64) -> Answer
    ensures { (result ≡ bare x (cbrt_squared_ranged x)) × ((v : Float) → result ≡ Value v → CbrtSquaredNear x v) }
{
    answers::bare(x, power_on_path(x, 0.6666666666666666))
}

// The same within a law: a NaN is refused by 3, what lies below the range by 2, above it by 10.
pub fn cbrt_squared_on_path(x: f64) -> Answer
    ensures { result ≡ on_path x (cbrt_squared_ranged x) }
{
    power_on_path(x, 0.6666666666666666)
}

// x^(-1/3), within 2^-45 times the exact value. A NaN or an infinity is refused by 1, a number below the range by 2, above it by 10.
pub fn inv_cbrt(x: f64) -> Answer
    ensures { (result ≡ bare x (inv_cbrt_ranged x)) × ((v : Float) → result ≡ Value v → InvCbrtNear x v) }
{
    answers::bare(x, power_on_path(x, -0.3333333333333333))
}

// The same within a law: a NaN is refused by 3, what lies below the range by 2, above it by 10.
pub fn inv_cbrt_on_path(x: f64) -> Answer
    ensures { result ≡ on_path x (inv_cbrt_ranged x) }
{
    power_on_path(x, -0.3333333333333333)
}

// x^(-2/3), within 2^-45 times the exact value. A NaN or an infinity is refused by 1, a number below the range by 2, above it by 10.
pub fn inv_cbrt_squared(x: f64) -> Answer
    ensures { (result ≡ bare x (inv_cbrt_squared_ranged x)) × ((v : Float) → result ≡ Value v → InvCbrtSquaredNear x v) }
{
    answers::bare(x, power_on_path(x, -0.6666666666666666))
}

// The same within a law: a NaN is refused by 3, what lies below the range by 2, above it by 10.
pub fn inv_cbrt_squared_on_path(x: f64) -> Answer
    ensures { result ≡ on_path x (inv_cbrt_squared_ranged x) }
{
    power_on_path(x, -0.6666666666666666)
}
