// Three logarithms at once, as a law asks them.
ghost use Rattle.std.specs.Prelude.{◌≡◌};
ghost use Rattle.answers.specs.Answer.{triple_of};
ghost use Rattle.answers.specs.Range.{on_path};
ghost use Rattle.logarithm.specs.Ln.{ln_ranged};

use super::ln_value;
use answers::Triple;

// ln of three numbers within a law, in their order.
pub fn logs_on_path(a: f64, b: f64, c: f64) -> Triple
    ensures { result ≡ triple_of (on_path a (ln_ranged a)) (on_path b (ln_ranged b)) (on_path c (ln_ranged c)) }
{
    if answers::all_in_range(8.673617379884035e-19, 1152921504606846976.0, a, b, c) {
        Triple::Values(ln_value(a), ln_value(b), ln_value(c))
    } else {
        Triple::Refused(answers::first_refusal(
            8.673617379884035e-19,
            1152921504606846976.0,
            a,
            b,
            c,
        ))
    }
}
