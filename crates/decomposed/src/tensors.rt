ghost use Rattle.std.specs.Prelude.{◌≡◌};
ghost use Rattle.answers.specs.Answer.{answered_of, given};
ghost use Rattle.tensor.specs.Finite.{mat_finite};
ghost use Rattle.tensor.specs.Answer.{answered, given_matrix};
ghost use Rattle.decomposed.specs.Decomposed.{deviatoric_of, spherical_of};
ghost use Rattle.decomposed.specs.Rates.{spin_tensor_of, strain_rate_of};

use crate::plain;
use answers::Answer;
use tensor::MatrixAnswer;

pub fn spin_tensor(m: [[f64; 3]; 3]) -> MatrixAnswer
    ensures { result ≡ given_matrix (mat_finite m) (answered (spin_tensor_of m)) }
{
    if tensor::mat_finite(m) {
        tensor::answered(plain::spin_tensor(m))
    } else {
        tensor::refused_matrix(answers::NOT_FINITE)
    }
}

pub fn strain_rate(m: [[f64; 3]; 3]) -> MatrixAnswer
    ensures { result ≡ given_matrix (mat_finite m) (answered (strain_rate_of m)) }
{
    if tensor::mat_finite(m) {
        tensor::answered(plain::strain_rate(m))
    } else {
        tensor::refused_matrix(answers::NOT_FINITE)
    }
}

pub fn deviatoric_part(m: [[f64; 3]; 3]) -> MatrixAnswer
    ensures { result ≡ given_matrix (mat_finite m) (answered (deviatoric_of m)) }
{
    if tensor::mat_finite(m) {
        tensor::answered(plain::deviatoric_part(m))
    } else {
        tensor::refused_matrix(answers::NOT_FINITE)
    }
}

pub fn spherical_part(m: [[f64; 3]; 3]) -> Answer
    ensures { result ≡ given (mat_finite m) (answered_of (spherical_of m)) }
{
    if tensor::mat_finite(m) {
        answers::answered(plain::spherical_part(m))
    } else {
        Answer::Refused(answers::NOT_FINITE)
    }
}
