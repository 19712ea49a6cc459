ghost use Rattle.std.specs.Prelude.{◌≡◌};
ghost use Rattle.physics.specs.Quadratic.{discriminant_of, roots_of, solve_quadratic_of};

use answers::{Answer, Pair, answered_pair};

fn discriminant(a: f64, b: f64, c: f64) -> f64
    ensures { result ≡ discriminant_of a b c }
{
    b * b - 4.0 * a * c
}

// The roots, once the discriminant's root is known.
fn roots(a: f64, b: f64, root: Answer) -> Pair
    ensures { result ≡ roots_of a b root }
{
    match root {
        Answer::Value(s) => answered_pair((-b + s) / (2.0 * a), (-b - s) / (2.0 * a)),
        Answer::Refused(n) => Pair::Refused(n),
    }
}

// The roots of a x^2 + b x + c, the one with +root first. The square root's refusal of the discriminant is handed on: 2 of a
// negative one, 10 of +infinity.
pub fn solve_quadratic(a: f64, b: f64, c: f64) -> Pair
    ensures { result ≡ solve_quadratic_of a b c }
{
    if numbers::is_finite(a) & numbers::is_finite(b) & numbers::is_finite(c) {
        roots(a, b, square_root::sqrt_on_path(discriminant(a, b, c)))
    } else {
        Pair::Refused(answers::NOT_FINITE)
    }
}
