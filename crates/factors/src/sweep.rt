// The sweeps. Each works the first two axes three times over, counting the axes from the next one after each time.
ghost use Rattle.std.specs.Prelude.{◌≡◌};
ghost use Rattle.factors.specs.Sweeps.{up_of, down_of, turned_of, mixed_of, columns_of, both_of, pair_of, cycle_row_of, cycle_of, next_of, sweep_by, settled_of, least_of, start_of, worked_of, signed_row_of, factors_of};

use crate::{Factors, Turn, Work, angle};
use tensor::Rows;

// 2^-51.
const LEAST: f64 = 4.440892098500626e-16;

// The pairs of axes, and the number of sweeps.
pub(crate) const PAIRS: u64 = 3;

pub(crate) const SWEEPS: u64 = 8;

fn up(a: [f64; 3], d: [f64; 3], r: Turn) -> [f64; 3]
    ensures { result ≡ up_of a d r }
{
    [
        r.c * a[0] - r.s * d[0],
        r.c * a[1] - r.s * d[1],
        r.c * a[2] - r.s * d[2],
    ]
}

fn down(a: [f64; 3], d: [f64; 3], r: Turn) -> [f64; 3]
    ensures { result ≡ down_of a d r }
{
    [
        r.s * a[0] + r.c * d[0],
        r.s * a[1] + r.c * d[1],
        r.s * a[2] + r.c * d[2],
    ]
}

// The first two rows turned.
fn turned(t: Rows, r: Turn) -> Rows
    ensures { result ≡ turned_of t r }
{
    let a = t.r0;
    let d = t.r1;
    let r0 = up(a, d, r);
    let r1 = down(a, d, r);
    let r2 = t.r2;
    Rows { r0, r1, r2 }
}

// The first two entries of a row turned.
fn mixed(a: [f64; 3], r: Turn) -> [f64; 3]
    ensures { result ≡ mixed_of a r }
{
    [r.c * a[0] - r.s * a[1], r.s * a[0] + r.c * a[1], a[2]]
}

// The first two columns turned.
fn columns(m: Rows, r: Turn) -> Rows
    ensures { result ≡ columns_of m r }
{
    let a = m.r0;
    let b = m.r1;
    let c = m.r2;
    let r0 = mixed(a, r);
    let r1 = mixed(b, r);
    let r2 = mixed(c, r);
    Rows { r0, r1, r2 }
}

// The first two axes turned, those of U by `left` and those of V by `right`.
pub(crate) fn both(w: Work, left: Turn, right: Turn) -> Work
    ensures { result ≡ both_of w left right }
{
    let n = w.m;
    let p = w.u;
    let q = w.v;
    let m = columns(turned(n, left), right);
    let u = turned(p, left);
    let v = turned(q, right);
    let least = w.least;
    Work { m, u, v, least }
}

fn cycle_row(a: [f64; 3]) -> [f64; 3]
    ensures { result ≡ cycle_row_of a }
{
    [a[1], a[2], a[0]]
}

fn cycle(t: Rows) -> Rows
    ensures { result ≡ cycle_of t }
{
    let r0 = t.r1;
    let r1 = t.r2;
    let r2 = t.r0;
    Rows { r0, r1, r2 }
}

// The axes counted from the next one.
pub(crate) fn next(w: Work) -> Work
    ensures { result ≡ next_of w }
{
    let p = w.m;
    let a = p.r0;
    let b = p.r1;
    let c = p.r2;
    let r0 = cycle_row(b);
    let r1 = cycle_row(c);
    let r2 = cycle_row(a);
    let q = w.u;
    let t = w.v;
    let least = w.least;
    let m = Rows { r0, r1, r2 };
    let u = cycle(q);
    let v = cycle(t);
    Work { m, u, v, least }
}

// The first two axes worked, then the axes counted from the next one. They are left as they are where both entries beside the diagonal are 0 or
// next to nothing. A half turn clears the part of the four that is alike on both sides, another the part that differs; U gets their sum, V their difference.
fn pair(w: Work) -> Work
    ensures { result ≡ pair_of w }
{
    let m = w.m;
    let e = w.least;
    let a = m.r0[0];
    let b = m.r0[1];
    let c = m.r1[0];
    let d = m.r1[1];
    if angle::tiny(b, e) & angle::tiny(c, e) {
        return next(w);
    }
    let x = angle::half_turn(0.5 * a + 0.5 * d, 0.5 * c - 0.5 * b, 0.5 * e);
    let y = angle::half_turn(0.5 * a - 0.5 * d, 0.5 * b + 0.5 * c, 0.5 * e);
    next(both(w, angle::after(y, x), angle::after(y, angle::back(x))))
}

// Whether nothing is left to turn.
pub(crate) fn settled(w: Work) -> bool
    ensures { result ≡ settled_of w }
{
    let m = w.m;
    let e = w.least;
    let a = m.r0;
    let b = m.r1;
    let c = m.r2;
    angle::tiny(a[1], e)
        & angle::tiny(a[2], e)
        & angle::tiny(b[0], e)
        & angle::tiny(b[2], e)
        & angle::tiny(c[0], e)
        & angle::tiny(c[1], e)
}

// A sweep: each pair of axes once.
#[tactic(auto, using(crate::proofs::Times::once_more))]
fn sweep(x: Work) -> Work
    ensures { result ≡ sweep_by pair_of x }
{
    let mut w = x;
    for _ in 0..PAIRS {
        w = pair(w);
    }
    w
}

fn row_size(a: [f64; 3]) -> f64
    ensures { result ≡ least_of a }
{
    LEAST * angle::size(a[0]) + LEAST * angle::size(a[1]) + LEAST * angle::size(a[2])
}

pub(crate) fn start(f: [[f64; 3]; 3]) -> Work
    ensures { result ≡ start_of f }
{
    let m = tensor::to_rows(f);
    let least = row_size(f[0]) + row_size(f[1]) + row_size(f[2]);
    let r0 = [1.0, 0.0, 0.0];
    let r1 = [0.0, 1.0, 0.0];
    let r2 = [0.0, 0.0, 1.0];
    let u = Rows { r0, r1, r2 };
    Work { m, u, v: u, least }
}

// Eight sweeps, or as many as leave nothing to turn.
#[tactic(auto, using(crate::proofs::Times::once_more, crate::proofs::Times::stays), unfolding(crate::specs::Sweeps::worked_of, crate::specs::Sweeps::step_of))]
fn worked(f: [[f64; 3]; 3]) -> Work
    ensures { result ≡ worked_of f }
{
    let mut w = start(f);
    for _ in 0..SWEEPS {
        if settled(w) {
            break;
        }
        w = sweep(w);
    }
    w
}

// The row of U^T, its sign changed with that of a sigma below 0.
fn signed_row(x: f64, a: [f64; 3]) -> [f64; 3]
    ensures { result ≡ signed_row_of x a }
{
    if x < 0.0 { [-a[0], -a[1], -a[2]] } else { a }
}

// U, sigma and V^T of f.
pub fn factors_of(f: [[f64; 3]; 3]) -> Factors
    ensures { result ≡ factors_of f }
{
    let w = worked(f);
    let m = w.m;
    let a = m.r0;
    let b = m.r1;
    let c = m.r2;
    let t = w.u;
    let p = t.r0;
    let q = t.r1;
    let s = t.r2;
    let u = tensor::to_rows(tensor::transpose([
        signed_row(a[0], p),
        signed_row(b[1], q),
        signed_row(c[2], s),
    ]));
    let sigma = [angle::size(a[0]), angle::size(b[1]), angle::size(c[2])];
    let vt = w.v;
    Factors { u, sigma, vt }
}
