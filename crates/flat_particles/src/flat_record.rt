// The layout of a flat record, and its parts read and written. A place past the end reads as 0: a list of the wrong length is refused, whatever was
// read of it.
ghost use Rattle.std.specs.Prelude.{◌≡◌, ◌+◌, ◌≤◌, ◌<◌, ◌^◌, length};
ghost use Rattle.record.specs.Layout.{row_over, mat_over, put_row_over};
ghost use Rattle.flat_particles.specs.Layout.{floats, put_shape, u_at, vt_at, state_at};

use flat::State;
use plasticity::Scalars;

const ROW: usize = 2;

const MATRIX: usize = ROW * ROW;

// Where each part begins: each where the one before it ends.
const F: usize = 0;

const U: usize = F + MATRIX;

const SIGMA: usize = U + MATRIX;

const VT: usize = SIGMA + ROW;

const PHASE: usize = VT + MATRIX;

pub const PLASTIC_DETERMINANT: usize = PHASE + 1;

pub const PLASTIC_HARDENING: usize = PLASTIC_DETERMINANT + 1;

pub const ELASTIC_HARDENING: usize = PLASTIC_HARDENING + 1;

pub const LOG_GAIN: usize = ELASTIC_HARDENING + 1;

pub const ALPHA: usize = LOG_GAIN + 1;

// How many floats a flat record has.
pub const FLOATS: usize = ALPHA + 1;

fn read_row(r: &[u64], at: usize) -> [f64; 2]
    requires { at < 2 ^ 32 }
    ensures { result ≡ row_over 2 r.now at }
{
    [record::float(r, at), record::float(r, at + 1)]
}

fn read_mat(r: &[u64], at: usize) -> [[f64; 2]; 2]
    requires { at < 2 ^ 31 }
    ensures { result ≡ mat_over 2 r.now at }
{
    [read_row(r, at), read_row(r, at + ROW)]
}

pub fn read_u(r: &[u64]) -> [[f64; 2]; 2]
    ensures { result ≡ u_at r.now }
{
    read_mat(r, U)
}

pub fn read_vt(r: &[u64]) -> [[f64; 2]; 2]
    ensures { result ≡ vt_at r.now }
{
    read_mat(r, VT)
}

pub fn read_state(r: &[u64]) -> State
    ensures { result ≡ state_at r.now }
{
    State {
        f: flat::to_rows(read_mat(r, F)),
        sigma: read_row(r, SIGMA),
        scalars: Scalars {
            phase: record::float(r, PHASE),
            plastic_determinant: record::float(r, PLASTIC_DETERMINANT),
            plastic_hardening: record::float(r, PLASTIC_HARDENING),
            elastic_hardening: record::float(r, ELASTIC_HARDENING),
            log_gain: record::float(r, LOG_GAIN),
            alpha: record::float(r, ALPHA),
        },
    }
}

fn write_row(r: &mut [u64], at: usize, v: [f64; 2])
    requires { at + 2 ≤ length r.old }
    ensures { r.new ≡ put_row_over 2 r.old at v }
{
    r[at] = numbers::bits_of(v[0]);
    r[at + 1] = numbers::bits_of(v[1]);
}

// F and sigma are written.
pub fn write_shape(r: &mut [u64], s: State)
    requires { length r.old ≡ floats }
    ensures { r.new ≡ put_shape r.old s }
{
    let a = s.f.r0;
    let b = s.f.r1;
    let sigma = s.sigma;
    write_row(r, F, a);
    write_row(r, F + ROW, b);
    write_row(r, SIGMA, sigma);
}
