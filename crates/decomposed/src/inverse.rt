ghost use Rattle.std.specs.Prelude.{◌≡◌};
ghost use Rattle.decomposed.specs.Inverse.{cofactor_row_of, cofactors_of, row_over_of, mat_over_of, inverse_transpose_of};

// The cofactors of one row, from the two rows that follow it in turn.
fn cofactor_row(a: [f64; 3], b: [f64; 3]) -> [f64; 3]
    ensures { result ≡ cofactor_row_of a b }
{
    let a0 = a[0];
    let a1 = a[1];
    let a2 = a[2];
    let b0 = b[0];
    let b1 = b[1];
    let b2 = b[2];
    [a1 * b2 - a2 * b1, a2 * b0 - a0 * b2, a0 * b1 - a1 * b0]
}

pub fn cofactors(m: [[f64; 3]; 3]) -> [[f64; 3]; 3]
    ensures { result ≡ cofactors_of m }
{
    let a = m[0];
    let b = m[1];
    let c = m[2];
    [cofactor_row(b, c), cofactor_row(c, a), cofactor_row(a, b)]
}

// Each entry over d.
fn row_over(a: [f64; 3], d: f64) -> [f64; 3]
    ensures { result ≡ row_over_of a d }
{
    [a[0] / d, a[1] / d, a[2] / d]
}

pub fn mat_over(m: [[f64; 3]; 3], d: f64) -> [[f64; 3]; 3]
    ensures { result ≡ mat_over_of m d }
{
    [row_over(m[0], d), row_over(m[1], d), row_over(m[2], d)]
}

// The transpose of the inverse of m, whose determinant is j; the identity where j is 0.
pub fn inverse_transpose(m: [[f64; 3]; 3], j: f64) -> [[f64; 3]; 3]
    ensures { result ≡ inverse_transpose_of m j }
{
    if j == 0.0 {
        tensor::identity_times(1.0)
    } else {
        mat_over(cofactors(m), j)
    }
}
