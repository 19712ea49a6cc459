// A record of finite floats: one test of its patterns, then each is read with no test of its own.
ghost use Rattle.std.specs.Prelude.{◌≡◌, true, ◌+◌, ◌≤◌, length};
ghost use Rattle.std.specs.Float.Ieee as Ieee;
ghost use Rattle.std.specs.Float.{binary64};
ghost use Rattle.numbers.specs.Floats.{finite};
ghost use Rattle.tensor.specs.Finite.{row_finite, mat_finite, rows_finite};
ghost use Rattle.plasticity.specs.State.{scalars_finite};
ghost use Rattle.record.specs.Layout.{floats, place_f, row_at, mat_at, rows_at, u_at, vt_at, state_at, record_finite, determinant_right, low, bits};

use plasticity::{Scalars, State};
use tensor::Rows;

// A sign's bit in the upper half of a pattern.
const SIGN: u32 = 0x8000_0000;

// The upper half of a pattern with no sign, its exponent one more: it reaches the sign where the exponent was all ones. In 32
// bits the compiler takes four patterns at a step.
fn lifted(n: u64) -> u32
    ensures { low result ≡ finite (Ieee.of_bits binary64 n) }
{
    (n / 0x1_0000_0000) as u32 % SIGN + 0x10_0000
}

// Whether a pattern is a finite float's: its exponent is not all ones.
pub fn word_finite(n: u64) -> bool
    ensures { result ≡ finite (Ieee.of_bits binary64 n) }
{
    lifted(n) < SIGN
}

fn row_lifted(r: &[u64], at: usize) -> u32
    requires { at + 3 ≤ length r.now }
    ensures { low result ≡ row_finite (row_at r.now at) }
{
    lifted(r[at]) | lifted(r[at + 1]) | lifted(r[at + 2])
}

fn mat_lifted(r: &[u64], at: usize) -> u32
    requires { at + 9 ≤ length r.now }
    ensures { low result ≡ mat_finite (mat_at r.now at) }
{
    row_lifted(r, at) | row_lifted(r, at + 3) | row_lifted(r, at + 6)
}

fn scalars_lifted(r: &[u64]) -> u32
    requires { length r.now ≡ floats }
    ensures { low result ≡ scalars_finite (state_at r.now).scalars }
{
    lifted(r[crate::PHASE])
        | lifted(r[crate::PLASTIC_DETERMINANT])
        | lifted(r[crate::PLASTIC_HARDENING])
        | lifted(r[crate::ELASTIC_HARDENING])
        | lifted(r[crate::LOG_GAIN])
        | lifted(r[crate::ALPHA])
}

// Whether every float of the record is finite: one test of them all.
pub fn all_finite(r: &[u64]) -> bool
    requires { length r.now ≡ floats }
    ensures { result ≡ record_finite r.now }
{
    let state = mat_lifted(r, crate::F) | row_lifted(r, crate::SIGMA) | scalars_lifted(r);
    let inputs = mat_lifted(r, crate::U) | mat_lifted(r, crate::VT) | state;
    inputs | lifted(r[crate::DETERMINANT]) < SIGN
}

fn read_word(n: u64) -> f64
    requires { finite (Ieee.of_bits binary64 n) ≡ true }
    ensures { result ≡ Ieee.of_bits binary64 n }
{
    f64::from_bits(n)
}

// The pattern of a finite float.
pub fn finite_bits(x: f64) -> u64
    requires { finite x ≡ true }
    ensures { result ≡ bits x }
{
    f64::to_bits(x)
}

fn read_row(r: &[u64], at: usize) -> [f64; 3]
    requires { (at + 3 ≤ length r.now) × (row_finite (row_at r.now at) ≡ true) }
    ensures { result ≡ row_at r.now at }
{
    [read_word(r[at]), read_word(r[at + 1]), read_word(r[at + 2])]
}

fn read_mat(r: &[u64], at: usize) -> [[f64; 3]; 3]
    requires { (at + 9 ≤ length r.now) × (mat_finite (mat_at r.now at) ≡ true) }
    ensures { result ≡ mat_at r.now at }
{
    [read_row(r, at), read_row(r, at + 3), read_row(r, at + 6)]
}

fn read_rows(r: &[u64], at: usize) -> Rows
    requires { (at + 9 ≤ length r.now) × (rows_finite (rows_at r.now at) ≡ true) }
    ensures { result ≡ rows_at r.now at }
{
    let r0 = read_row(r, at);
    let r1 = read_row(r, at + 3);
    let r2 = read_row(r, at + 6);
    Rows { r0, r1, r2 }
}

// F of a finite record.
pub fn read_f(r: &[u64]) -> [[f64; 3]; 3]
    requires { (length r.now ≡ floats) × (record_finite r.now ≡ true) }
    ensures { result ≡ mat_at r.now place_f }
{
    read_mat(r, crate::F)
}

// Its U.
pub fn read_u(r: &[u64]) -> [[f64; 3]; 3]
    requires { (length r.now ≡ floats) × (record_finite r.now ≡ true) }
    ensures { result ≡ u_at r.now }
{
    read_mat(r, crate::U)
}

// Its V^T.
pub fn read_vt(r: &[u64]) -> [[f64; 3]; 3]
    requires { (length r.now ≡ floats) × (record_finite r.now ≡ true) }
    ensures { result ≡ vt_at r.now }
{
    read_mat(r, crate::VT)
}

// Whether its stored determinant is that of its F, in every bit.
pub fn determinant_right(r: &[u64]) -> bool
    requires { (length r.now ≡ floats) × (record_finite r.now ≡ true) }
    ensures { result ≡ determinant_right r.now }
{
    let f = read_f(r);
    r[crate::DETERMINANT] == numbers::bits_of(tensor::determinant(f))
}

// And its state.
pub fn read_state(r: &[u64]) -> State
    requires { (length r.now ≡ floats) × (record_finite r.now ≡ true) }
    ensures { result ≡ state_at r.now }
{
    State {
        f: read_rows(r, crate::F),
        sigma: read_row(r, crate::SIGMA),
        scalars: Scalars {
            phase: read_word(r[crate::PHASE]),
            plastic_determinant: read_word(r[crate::PLASTIC_DETERMINANT]),
            plastic_hardening: read_word(r[crate::PLASTIC_HARDENING]),
            elastic_hardening: read_word(r[crate::ELASTIC_HARDENING]),
            log_gain: read_word(r[crate::LOG_GAIN]),
            alpha: read_word(r[crate::ALPHA]),
        },
    }
}
