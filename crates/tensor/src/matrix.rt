ghost use Rattle.std.specs.Prelude.{◌≡◌};
ghost use Rattle.tensor.specs.Matrix.{det_of, scaled_row_of, scaled_of, recompose_of, transpose_of, dot_of, row_times_of, mul_cols_of, mul_of, sum_of, product_of, rows_of, of_rows, row_add_of, row_sub_of, row_scale_of, mat_add_of, mat_scale_of, identity_times_of};
ghost use Rattle.tensor.specs.Finite.{row_finite, mat_finite, rows_finite};

use crate::Rows;

pub fn transpose(m: [[f64; 3]; 3]) -> [[f64; 3]; 3]
    ensures { result ≡ transpose_of m }
{
    let a = m[0];
    let b = m[1];
    let c = m[2];
    [[a[0], b[0], c[0]], [a[1], b[1], c[1]], [a[2], b[2], c[2]]]
}

// The sum of products, by rising index.
pub fn dot(a: [f64; 3], b: [f64; 3]) -> f64
    ensures { result ≡ dot_of a b }
{
    a[0] * b[0] + a[1] * b[1] + a[2] * b[2]
}

fn row_times(a: [f64; 3], t: [[f64; 3]; 3]) -> [f64; 3]
    ensures { result ≡ row_times_of a t }
{
    [dot(a, t[0]), dot(a, t[1]), dot(a, t[2])]
}

// The product of a and the matrix whose columns are the rows of t.
fn mul_cols(a: [[f64; 3]; 3], t: [[f64; 3]; 3]) -> [[f64; 3]; 3]
    ensures { result ≡ mul_cols_of a t }
{
    [row_times(a[0], t), row_times(a[1], t), row_times(a[2], t)]
}

pub fn mat_mul(a: [[f64; 3]; 3], b: [[f64; 3]; 3]) -> [[f64; 3]; 3]
    ensures { result ≡ mul_of a b }
{
    mul_cols(a, transpose(b))
}

// Along the first row.
pub fn determinant(m: [[f64; 3]; 3]) -> f64
    ensures { result ≡ det_of m }
{
    let a = m[0];
    let b = m[1];
    let c = m[2];
    let d = b[0];
    let e = b[1];
    let f = b[2];
    let g = c[0];
    let h = c[1];
    let i = c[2];
    a[0] * (e * i - h * f) - a[1] * (d * i - g * f) + a[2] * (d * h - g * e)
}

fn scaled_row(u: [f64; 3], s: [f64; 3]) -> [f64; 3]
    ensures { result ≡ scaled_row_of u s }
{
    [u[0] * s[0], u[1] * s[1], u[2] * s[2]]
}

fn scaled(u: [[f64; 3]; 3], s: [f64; 3]) -> [[f64; 3]; 3]
    ensures { result ≡ scaled_of u s }
{
    [
        scaled_row(u[0], s),
        scaled_row(u[1], s),
        scaled_row(u[2], s),
    ]
}

// U sigma V^T: U's columns are scaled first.
pub fn recompose(u: [[f64; 3]; 3], s: [f64; 3], vt: [[f64; 3]; 3]) -> [[f64; 3]; 3]
    ensures { result ≡ recompose_of u s vt }
{
    mat_mul(scaled(u, s), vt)
}

// The sum of the entries, by rising index.
pub fn sum(e: [f64; 3]) -> f64
    ensures { result ≡ sum_of e }
{
    e[0] + e[1] + e[2]
}

// The product of the entries, by rising index.
pub fn product(s: [f64; 3]) -> f64
    ensures { result ≡ product_of s }
{
    s[0] * s[1] * s[2]
}

pub fn row_add(a: [f64; 3], b: [f64; 3]) -> [f64; 3]
    ensures { result ≡ row_add_of a b }
{
    [a[0] + b[0], a[1] + b[1], a[2] + b[2]]
}

pub fn row_sub(a: [f64; 3], b: [f64; 3]) -> [f64; 3]
    ensures { result ≡ row_sub_of a b }
{
    [a[0] - b[0], a[1] - b[1], a[2] - b[2]]
}

// Each entry times k.
pub fn row_scale(k: f64, a: [f64; 3]) -> [f64; 3]
    ensures { result ≡ row_scale_of k a }
{
    [k * a[0], k * a[1], k * a[2]]
}

pub fn mat_add(a: [[f64; 3]; 3], b: [[f64; 3]; 3]) -> [[f64; 3]; 3]
    ensures { result ≡ mat_add_of a b }
{
    [
        row_add(a[0], b[0]),
        row_add(a[1], b[1]),
        row_add(a[2], b[2]),
    ]
}

// Each entry times k.
pub fn mat_scale(k: f64, a: [[f64; 3]; 3]) -> [[f64; 3]; 3]
    ensures { result ≡ mat_scale_of k a }
{
    [row_scale(k, a[0]), row_scale(k, a[1]), row_scale(k, a[2])]
}

// The identity with each entry times k; off the diagonal stands k times 0.
pub fn identity_times(k: f64) -> [[f64; 3]; 3]
    ensures { result ≡ identity_times_of k }
{
    let d = k * 1.0;
    let o = k * 0.0;
    [[d, o, o], [o, d, o], [o, o, d]]
}

pub fn to_rows(m: [[f64; 3]; 3]) -> Rows
    ensures { result ≡ rows_of m }
{
    let r0 = m[0];
    let r1 = m[1];
    let r2 = m[2];
    Rows { r0, r1, r2 }
}

pub fn of_rows(m: Rows) -> [[f64; 3]; 3]
    ensures { result ≡ of_rows m }
{
    let a = m.r0;
    let b = m.r1;
    let c = m.r2;
    [a, b, c]
}

// Whether every entry is finite.
pub fn row_finite(a: [f64; 3]) -> bool
    ensures { result ≡ row_finite a }
{
    numbers::is_finite(a[0]) & numbers::is_finite(a[1]) & numbers::is_finite(a[2])
}

pub fn mat_finite(m: [[f64; 3]; 3]) -> bool
    ensures { result ≡ mat_finite m }
{
    row_finite(m[0]) & row_finite(m[1]) & row_finite(m[2])
}

pub fn rows_finite(m: Rows) -> bool
    ensures { result ≡ rows_finite m }
{
    let a = m.r0;
    let b = m.r1;
    let c = m.r2;
    row_finite(a) & row_finite(b) & row_finite(c)
}
