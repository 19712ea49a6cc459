ghost use Rattle.std.specs.Prelude.{◌≡◌};
ghost use Rattle.host_lists.specs.Refused.{sized_number, sized_vector, sized_matrix, sized_judged, flagged_number, flagged_judged};

use answers::Answer;
use solid::StressVerdict;
use tensor::{MatrixAnswer, VectorAnswer};

// The answer where the lists have their lengths, else 8.
pub fn sized(ok: bool, a: Answer) -> Answer
    ensures { result ≡ sized_number ok a }
{
    if ok {
        a
    } else {
        Answer::Refused(answers::LENGTH)
    }
}

pub fn sized_vector(ok: bool, a: VectorAnswer) -> VectorAnswer
    ensures { result ≡ sized_vector ok a }
{
    if ok {
        a
    } else {
        tensor::refused_vector(answers::LENGTH)
    }
}

pub fn sized_matrix(ok: bool, a: MatrixAnswer) -> MatrixAnswer
    ensures { result ≡ sized_matrix ok a }
{
    if ok {
        a
    } else {
        tensor::refused_matrix(answers::LENGTH)
    }
}

pub fn sized_judged(ok: bool, a: StressVerdict) -> StressVerdict
    ensures { result ≡ sized_judged ok a }
{
    if ok {
        a
    } else {
        solid::judged::refused_judged(answers::LENGTH)
    }
}

// The answer where w is a flag, else 6.
pub fn flagged(w: u64, a: Answer) -> Answer
    ensures { result ≡ flagged_number w a }
{
    if model::is_flag(w) {
        a
    } else {
        Answer::Refused(answers::UNKNOWN)
    }
}

pub fn flagged_judged(w: u64, a: StressVerdict) -> StressVerdict
    ensures { result ≡ flagged_judged w a }
{
    if model::is_flag(w) {
        a
    } else {
        solid::judged::refused_judged(answers::UNKNOWN)
    }
}
