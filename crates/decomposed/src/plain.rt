// DecomposedTensor's functions as lib.rs has them, and those of tensors as physics.rs does, on every input: nothing is refused here.
ghost use Rattle.std.specs.Prelude.{◌≡◌};
ghost use Rattle.decomposed.specs.Decomposed.{spherical_of, less_diagonal_of, deviatoric_of, decompose_of, zero_tensor, recomposed_of, sum_of, times_of};
ghost use Rattle.decomposed.specs.Rates.{spin_tensor_of, strain_rate_of};

use crate::{DecomposedTensor, matrix};
use tensor::Rows;

pub fn spherical_part(m: [[f64; 3]; 3]) -> f64
    ensures { result ≡ spherical_of m }
{
    matrix::trace(m) / 3.0
}

// m with s taken from each entry of the diagonal.
fn less_diagonal(m: [[f64; 3]; 3], s: f64) -> [[f64; 3]; 3]
    ensures { result ≡ less_diagonal_of m s }
{
    let a = m[0];
    let b = m[1];
    let c = m[2];
    [
        [a[0] - s, a[1], a[2]],
        [b[0], b[1] - s, b[2]],
        [c[0], c[1], c[2] - s],
    ]
}

pub fn deviatoric_part(m: [[f64; 3]; 3]) -> [[f64; 3]; 3]
    ensures { result ≡ deviatoric_of m }
{
    less_diagonal(m, spherical_part(m))
}

pub fn decompose(m: [[f64; 3]; 3]) -> DecomposedTensor
    ensures { result ≡ decompose_of m }
{
    let s = spherical_part(m);
    let d = tensor::to_rows(less_diagonal(m, s));
    DecomposedTensor {
        deviatoric_part: d,
        spherical_part: s,
    }
}

pub fn zero() -> DecomposedTensor
    ensures { result ≡ zero_tensor }
{
    let z = [0.0, 0.0, 0.0];
    let zeros = Rows {
        r0: z,
        r1: z,
        r2: z,
    };
    DecomposedTensor {
        deviatoric_part: zeros,
        spherical_part: 0.0,
    }
}

// The deviatoric part plus the identity times the spherical part.
pub fn recompose(t: DecomposedTensor) -> [[f64; 3]; 3]
    ensures { result ≡ recomposed_of t }
{
    let rows = t.deviatoric_part;
    tensor::mat_add(
        tensor::of_rows(rows),
        tensor::identity_times(t.spherical_part),
    )
}

pub fn add(a: DecomposedTensor, b: DecomposedTensor) -> DecomposedTensor
    ensures { result ≡ sum_of a b }
{
    let x = a.deviatoric_part;
    let y = b.deviatoric_part;
    let d = tensor::to_rows(tensor::mat_add(tensor::of_rows(x), tensor::of_rows(y)));
    DecomposedTensor {
        deviatoric_part: d,
        spherical_part: a.spherical_part + b.spherical_part,
    }
}

// `a += b`: what a holds after it.
pub fn add_assign(a: DecomposedTensor, b: DecomposedTensor) -> DecomposedTensor
    ensures { result ≡ sum_of a b }
{
    add(a, b)
}

// The tensor times a vector: deviatoric part times v, plus spherical part times v.
pub fn times(t: DecomposedTensor, v: [f64; 3]) -> [f64; 3]
    ensures { result ≡ times_of t v }
{
    let rows = t.deviatoric_part;
    let d = matrix::mat_vec(tensor::of_rows(rows), v);
    tensor::row_add(d, tensor::row_scale(t.spherical_part, v))
}

pub fn spin_tensor(gradient: [[f64; 3]; 3]) -> [[f64; 3]; 3]
    ensures { result ≡ spin_tensor_of gradient }
{
    let t = tensor::transpose(gradient);
    tensor::mat_scale(0.5, matrix::mat_sub(gradient, t))
}

pub fn strain_rate(gradient: [[f64; 3]; 3]) -> [[f64; 3]; 3]
    ensures { result ≡ strain_rate_of gradient }
{
    let t = tensor::transpose(gradient);
    tensor::mat_scale(0.5, tensor::mat_add(gradient, t))
}
