// Floats of a record, and the determinant of its F (RULES, section 7). A place past the end reads as 0: a list of the wrong length is refused, whatever was read of it.
ghost use Rattle.std.specs.Prelude.{◌≡◌, List, get_or, length, ℕ, ◌<◌, ◌≤◌, ◌^◌};
ghost use Rattle.tensor.specs.Matrix.{det_of, of_rows};
ghost use Rattle.record.specs.Layout.{floats, place_f, float_at, row_at, bits, put_rows, determinant_at};

use tensor::Rows;

pub fn word(r: &[u64], at: usize) -> u64
    ensures { result ≡ get_or r.now at 0 }
{
    if at < r.len() { r[at] } else { 0 }
}

pub fn float(r: &[u64], at: usize) -> f64
    ensures { result ≡ float_at r.now at }
{
    numbers::float_of(word(r, at))
}

fn row(r: &[u64], at: usize) -> [f64; 3]
    requires { at < 2 ^ 32 }
    ensures { result ≡ row_at r.now at }
{
    [float(r, at), float(r, at + 1), float(r, at + 2)]
}

// The determinant of the F that stands there, as bits.
pub fn determinant(r: &[u64]) -> u64
    ensures { result ≡ determinant_at r.now }
{
    let f = [row(r, crate::F), row(r, crate::F + 3), row(r, crate::F + 6)];
    numbers::bits_of(tensor::determinant(f))
}

// The determinant that a record has once f is written into it.
pub fn determinant_with(f: Rows) -> u64
    ensures { (result ≡ bits (det_of (of_rows f))) × ((r : List ℕ) → floats ≤ length r → result ≡ determinant_at (put_rows r place_f f)) }
{
    numbers::bits_of(tensor::determinant(tensor::of_rows(f)))
}
