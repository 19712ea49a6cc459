ghost use Rattle.std.specs.Prelude.{◌≡◌};
ghost use Rattle.decomposed.specs.Matrix.{trace_of, mat_sub_of, mat_vec_of};

use tensor::{dot, row_sub};

// The sum of the diagonal, by rising index.
pub fn trace(m: [[f64; 3]; 3]) -> f64
    ensures { result ≡ trace_of m }
{
    m[0][0] + m[1][1] + m[2][2]
}

pub fn mat_sub(a: [[f64; 3]; 3], b: [[f64; 3]; 3]) -> [[f64; 3]; 3]
    ensures { result ≡ mat_sub_of a b }
{
    [
        row_sub(a[0], b[0]),
        row_sub(a[1], b[1]),
        row_sub(a[2], b[2]),
    ]
}

pub fn mat_vec(a: [[f64; 3]; 3], v: [f64; 3]) -> [f64; 3]
    ensures { result ≡ mat_vec_of a v }
{
    [dot(a[0], v), dot(a[1], v), dot(a[2], v)]
}
