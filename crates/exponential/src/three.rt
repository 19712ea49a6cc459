// Three exponentials at once, as a law asks them.
ghost use Rattle.std.specs.Prelude.{◌≡◌};
ghost use Rattle.answers.specs.Answer.{triple_of};
ghost use Rattle.answers.specs.Range.{on_path};
ghost use Rattle.exponential.specs.Exp.{exp_ranged};

use super::exp_value;
use answers::Triple;

// exp of three numbers within a law, in their order.
pub fn exps_on_path(a: f64, b: f64, c: f64) -> Triple
    ensures { result ≡ triple_of (on_path a (exp_ranged a)) (on_path b (exp_ranged b)) (on_path c (exp_ranged c)) }
{
    if answers::all_in_range(-700.0, 700.0, a, b, c) {
        Triple::Values(exp_value(a), exp_value(b), exp_value(c))
    } else {
        Triple::Refused(answers::first_refusal(-700.0, 700.0, a, b, c))
    }
}
