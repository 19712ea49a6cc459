// DecomposedTensor's calls with RULES' refusals (section 6): an input that isn't finite is 1, then a result that
// isn't finite 3. Those of the same names in `plain` refuse nothing.
ghost use Rattle.std.specs.Prelude.{◌≡◌, ◌&&◌};
ghost use Rattle.tensor.specs.Finite.{row_finite, mat_finite};
ghost use Rattle.tensor.specs.Answer.{answered, given_matrix, answered_vector, given_vector};
ghost use Rattle.decomposed.specs.Decomposed.{decompose_of, recomposed_of, sum_of, times_of, tensor_finite, refused_tensor, answered_tensor, given_tensor};

use crate::{DecomposedAnswer, DecomposedTensor, plain};
use tensor::{MatrixAnswer, VectorAnswer};

pub fn tensor_finite(t: DecomposedTensor) -> bool
    ensures { result ≡ tensor_finite t }
{
    let d = t.deviatoric_part;
    tensor::rows_finite(d) & numbers::is_finite(t.spherical_part)
}

fn refused_tensor(n: u8) -> DecomposedAnswer
    ensures { result ≡ refused_tensor n }
{
    let z = plain::zero();
    DecomposedAnswer {
        refusal: n,
        tensor: z,
    }
}

// The tensor, or 3 where a number in it isn't finite.
fn answered_tensor(t: DecomposedTensor) -> DecomposedAnswer
    ensures { result ≡ answered_tensor t }
{
    if tensor_finite(t) {
        DecomposedAnswer {
            refusal: 0,
            tensor: t,
        }
    } else {
        refused_tensor(answers::NO_NUMBER)
    }
}

impl DecomposedTensor {
    pub fn decompose(m: [[f64; 3]; 3]) -> DecomposedAnswer
        ensures { result ≡ given_tensor (mat_finite m) (answered_tensor (decompose_of m)) }
    {
        if tensor::mat_finite(m) {
            answered_tensor(plain::decompose(m))
        } else {
            refused_tensor(answers::NOT_FINITE)
        }
    }

    pub fn recompose(self) -> MatrixAnswer
        ensures { result ≡ given_matrix (tensor_finite self) (answered (recomposed_of self)) }
    {
        if tensor_finite(self) {
            tensor::answered(plain::recompose(self))
        } else {
            tensor::refused_matrix(answers::NOT_FINITE)
        }
    }

    pub fn add(self, rhs: DecomposedTensor) -> DecomposedAnswer
        ensures { result ≡ given_tensor (tensor_finite self && tensor_finite rhs) (answered_tensor (sum_of self rhs)) }
    {
        if tensor_finite(self) & tensor_finite(rhs) {
            answered_tensor(plain::add(self, rhs))
        } else {
            refused_tensor(answers::NOT_FINITE)
        }
    }

    // `self += rhs`: what self holds after it, or the refusal of the sum.
    pub fn add_assign(self, rhs: DecomposedTensor) -> DecomposedAnswer
        ensures { result ≡ given_tensor (tensor_finite self && tensor_finite rhs) (answered_tensor (sum_of self rhs)) }
    {
        self.add(rhs)
    }

    // The tensor times a vector.
    pub fn times(self, v: [f64; 3]) -> VectorAnswer
        ensures { result ≡ given_vector (tensor_finite self && row_finite v) (answered_vector (times_of self v)) }
    {
        if tensor_finite(self) & tensor::row_finite(v) {
            tensor::answered_vector(plain::times(self, v))
        } else {
            tensor::refused_vector(answers::NOT_FINITE)
        }
    }
}
