ghost use Rattle.std.specs.Prelude.{◌≡◌};
ghost use Rattle.tensor.specs.Matrix.{sum_of, product_of, dot_of, row_sub_of, scaled_row_of};
ghost use Rattle.tensor.specs.Finite.{row_finite, mat_finite};
ghost use Rattle.walk.specs.Axes.{recompose_over};
ghost use Rattle.flat.specs.State.{rows_of, of_rows, rows_finite};

use crate::Rows;

// The sum of products, by rising index.
pub fn dot(a: [f64; 2], b: [f64; 2]) -> f64
    ensures { result ≡ dot_of a b }
{
    a[0] * b[0] + a[1] * b[1]
}

fn scaled_row(u: [f64; 2], s: [f64; 2]) -> [f64; 2]
    ensures { result ≡ scaled_row_of u s }
{
    [u[0] * s[0], u[1] * s[1]]
}

// U sigma V^T: U's columns are scaled first.
pub fn recompose(u: [[f64; 2]; 2], sigma: [f64; 2], vt: [[f64; 2]; 2]) -> [[f64; 2]; 2]
    ensures { result ≡ recompose_over 2 u sigma vt }
{
    let a = scaled_row(u[0], sigma);
    let b = scaled_row(u[1], sigma);
    let c = [vt[0][0], vt[1][0]];
    let d = [vt[0][1], vt[1][1]];
    [[dot(a, c), dot(a, d)], [dot(b, c), dot(b, d)]]
}

// The sum of the entries, by rising index.
pub fn sum(e: [f64; 2]) -> f64
    ensures { result ≡ sum_of e }
{
    e[0] + e[1]
}

// The product of the entries, by rising index.
pub fn product(s: [f64; 2]) -> f64
    ensures { result ≡ product_of s }
{
    s[0] * s[1]
}

pub fn row_sub(a: [f64; 2], b: [f64; 2]) -> [f64; 2]
    ensures { result ≡ row_sub_of a b }
{
    [a[0] - b[0], a[1] - b[1]]
}

pub fn to_rows(m: [[f64; 2]; 2]) -> Rows
    ensures { result ≡ rows_of m }
{
    let r0 = m[0];
    let r1 = m[1];
    Rows { r0, r1 }
}

pub fn of_rows(m: Rows) -> [[f64; 2]; 2]
    ensures { result ≡ of_rows m }
{
    let a = m.r0;
    let b = m.r1;
    [a, b]
}

// Whether every entry is finite.
pub fn row_finite(a: [f64; 2]) -> bool
    ensures { result ≡ row_finite a }
{
    numbers::is_finite(a[0]) & numbers::is_finite(a[1])
}

pub fn mat_finite(m: [[f64; 2]; 2]) -> bool
    ensures { result ≡ mat_finite m }
{
    row_finite(m[0]) & row_finite(m[1])
}

pub fn rows_finite(m: Rows) -> bool
    ensures { result ≡ rows_finite m }
{
    let a = m.r0;
    let b = m.r1;
    row_finite(a) & row_finite(b)
}
