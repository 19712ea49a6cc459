// The hyperbolic sine, from the exponential of the argument's size. sinh (-0.0) is -0.0.
ghost use Rattle.std.specs.Prelude.{◌≡◌, true, Float};
ghost use Rattle.answers.specs.declared.Answer.TheVariants.{Value};
ghost use Rattle.series.specs.SinhNear.{SinhNear};
ghost use Rattle.answers.specs.Range.{in_range, bare, on_path};
ghost use Rattle.exponential.specs.Worked.{low, high};
ghost use Rattle.exponential.specs.Sinh.{size_of, growth_of, sinh_of, sinh_ranged};

use answers::Answer;

// |x|.
fn size(x: f64) -> f64
    requires { in_range low high x ≡ true }
    ensures { result ≡ size_of x }
{
    if super::negative(x) { -x } else { x }
}

// exp |x|.
fn growth(x: f64) -> f64
    requires { in_range low high x ≡ true }
    ensures { result ≡ growth_of x }
{
    super::exp_value(size(x))
}

// sinh x, for an x within the range: within 2^-45 times (1 + the size of the exact value).
fn sinh_value(x: f64) -> f64
    requires { in_range low high x ≡ true }
    ensures { result ≡ sinh_of x }
{
    let e = growth(x);
    let h = (e - 1.0 / e) * 0.5;
    if super::negative(x) { -h } else { h }
}

// sinh x within the range; outside it the refusal of its side.
fn sinh_ranged(x: f64) -> Answer
    ensures { result ≡ sinh_ranged x }
{
    if answers::in_range(-700.0, 700.0, x) {
        Answer::Value(sinh_value(x))
    } else {
        answers::outside(-700.0, 700.0, x)
    }
}

// sinh x, within 2^-45 times (1 + size of the exact value). A NaN or an infinity is refused by 1, a number below the range by 2, above it by 10.
pub fn sinh(x: f64) -> Answer
    ensures { (result ≡ bare x (sinh_ranged x)) × ((v : Float) → result ≡ Value v → SinhNear x v) }
{
    answers::bare(x, sinh_ranged(x))
}

// sinh x within a law: a NaN is refused by 3, what lies below the range by 2, above it by 10.
pub fn sinh_on_path(x: f64) -> Answer
    ensures { result ≡ on_path x (sinh_ranged x) }
{
    answers::on_path(x, sinh_ranged(x))
}
