// The friction m of an angle, in d axes (plasticity_nacc.rs, `new`).
ghost use Rattle.std.specs.Prelude.{◌≡◌};
ghost use Rattle.plasticity_nacc.specs.Friction.{friction_steps, friction_of};

use answers::Answer;

// As steps of `new`, in the text's order: a NaN is 3.
pub fn friction_on_path(d: f64, angle: f64) -> Answer
    ensures { result ≡ friction_steps d angle }
{
    match sine::sin_on_path(angle) {
        Answer::Value(s) => match square_root::sqrt_on_path(2.0 / 3.0) {
            Answer::Value(r) => match square_root::sqrt_on_path(2.0 / (6.0 - d)) {
                Answer::Value(q) => answers::answered(r * 2.0 * s / (3.0 - s) * d / q),
                Answer::Refused(n) => Answer::Refused(n),
            },
            Answer::Refused(n) => Answer::Refused(n),
        },
        Answer::Refused(n) => Answer::Refused(n),
    }
}

// As a call by itself.
pub fn friction_of(d: f64, angle: f64) -> Answer
    ensures { result ≡ friction_of d angle }
{
    if numbers::is_finite(d) & numbers::is_finite(angle) {
        friction_on_path(d, angle)
    } else {
        Answer::Refused(answers::NOT_FINITE)
    }
}
