ghost use Rattle.std.specs.Prelude.{◌≡◌};
ghost use Rattle.tensor.specs.Answer.{refused_matrix, refused_vector, answered, answered_vector};

use crate::{MatrixAnswer, Rows, VectorAnswer, matrix};

// The refusal by the number n.
pub fn refused_matrix(n: u8) -> MatrixAnswer
    ensures { result ≡ refused_matrix n }
{
    let z = [0.0, 0.0, 0.0];
    let zeros = Rows {
        r0: z,
        r1: z,
        r2: z,
    };
    MatrixAnswer {
        refusal: n,
        matrix: zeros,
    }
}

pub fn refused_vector(n: u8) -> VectorAnswer
    ensures { result ≡ refused_vector n }
{
    let z = [0.0, 0.0, 0.0];
    VectorAnswer {
        refusal: n,
        vector: z,
    }
}

// The matrix, or 3 where an entry isn't finite.
pub fn answered(m: [[f64; 3]; 3]) -> MatrixAnswer
    ensures { result ≡ answered m }
{
    if matrix::mat_finite(m) {
        let rows = matrix::to_rows(m);
        MatrixAnswer {
            refusal: 0,
            matrix: rows,
        }
    } else {
        refused_matrix(answers::NO_NUMBER)
    }
}

pub fn answered_vector(v: [f64; 3]) -> VectorAnswer
    ensures { result ≡ answered_vector v }
{
    if matrix::row_finite(v) {
        VectorAnswer {
            refusal: 0,
            vector: v,
        }
    } else {
        refused_vector(answers::NO_NUMBER)
    }
}
