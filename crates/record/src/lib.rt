// A record: its floats as bits in a lent list (RULES, section 7). The layout stands here alone.
#![tactic(auto)]

mod finite;
mod total;

ghost use Rattle.std.specs.Prelude.{◌≡◌, true, ◌+◌, ◌≤◌, length, set};
ghost use Rattle.tensor.specs.Finite.{row_finite, rows_finite};
ghost use Rattle.record.specs.Layout.{bits, put_row, put_rows};

pub use finite::{
    all_finite, determinant_right, finite_bits, read_f, read_state, read_u, read_vt, word_finite,
};
use tensor::Rows;
pub use total::{determinant, determinant_with, float, word};

// Where each part begins: F, U, sigma and V^T by rows, then six scalars, then F's determinant. Each begins where the one before it ends.
const ROW: usize = 3;

const MATRIX: usize = 3 * ROW;

pub const F: usize = 0;

pub const U: usize = F + MATRIX;

pub const SIGMA: usize = U + MATRIX;

pub const VT: usize = SIGMA + ROW;

pub const PHASE: usize = VT + MATRIX;

pub const PLASTIC_DETERMINANT: usize = PHASE + 1;

pub const PLASTIC_HARDENING: usize = PLASTIC_DETERMINANT + 1;

pub const ELASTIC_HARDENING: usize = PLASTIC_HARDENING + 1;

pub const LOG_GAIN: usize = ELASTIC_HARDENING + 1;

pub const ALPHA: usize = LOG_GAIN + 1;

pub const DETERMINANT: usize = ALPHA + 1;

// How many floats a record has, and how many stand before the determinant.
pub const FLOATS: usize = DETERMINANT + 1;

pub const BARE: usize = DETERMINANT;

pub fn write_row(r: &mut [u64], at: usize, v: [f64; 3])
    requires { at + 3 ≤ length r.old }
    ensures { r.new ≡ put_row r.old at v }
{
    r[at] = numbers::bits_of(v[0]);
    r[at + 1] = numbers::bits_of(v[1]);
    r[at + 2] = numbers::bits_of(v[2]);
}

pub fn write_rows(r: &mut [u64], at: usize, m: Rows)
    requires { at + 9 ≤ length r.old }
    ensures { r.new ≡ put_rows r.old at m }
{
    let a = m.r0;
    let b = m.r1;
    let c = m.r2;
    write_row(r, at, a);
    write_row(r, at + 3, b);
    write_row(r, at + 6, c);
}

// The same of finite floats, with no test of a NaN.
pub fn store_row(r: &mut [u64], at: usize, v: [f64; 3])
    requires { (at + 3 ≤ length r.old) × (row_finite v ≡ true) }
    ensures { r.new ≡ put_row r.old at v }
{
    r[at] = finite_bits(v[0]);
    r[at + 1] = finite_bits(v[1]);
    r[at + 2] = finite_bits(v[2]);
}

pub fn store_rows(r: &mut [u64], at: usize, m: Rows)
    requires { (at + 9 ≤ length r.old) × (rows_finite m ≡ true) }
    ensures { r.new ≡ put_rows r.old at m }
{
    let a = m.r0;
    let b = m.r1;
    let c = m.r2;
    store_row(r, at, a);
    store_row(r, at + 3, b);
    store_row(r, at + 6, c);
}
