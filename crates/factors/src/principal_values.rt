// Principal values of a symmetric matrix by the same sweeps, both sides turned alike.
ghost use Rattle.std.specs.Prelude.{◌≡◌, true};
ghost use Rattle.exact.specs.Units.{mag};
ghost use Rattle.tensor.specs.Finite.{mat_finite};
ghost use Rattle.factors.specs.Check.{largest_in};
ghost use Rattle.factors.specs.Sweeps.{sweep_by};
ghost use Rattle.factors.specs.PrincipalValues.{mirrored_of, level_pair_of, levelled_of, principal_of, mirrored_accepted, principal_accepted};

use crate::{Principal, Work, angle, check, sweep};

// The lower triangle with the diagonal, mirrored.
fn mirrored(f: [[f64; 3]; 3]) -> [[f64; 3]; 3]
    ensures { result ≡ mirrored_of f }
{
    [
        [f[0][0], f[1][0], f[2][0]],
        [f[1][0], f[1][1], f[2][1]],
        [f[2][0], f[2][1], f[2][2]],
    ]
}

fn level_pair(w: Work) -> Work
    ensures { result ≡ level_pair_of w }
{
    let m = w.m;
    let e = w.least;
    let a = m.r0[0];
    let b = m.r0[1];
    let c = m.r1[0];
    let d = m.r1[1];
    if angle::tiny(b, e) & angle::tiny(c, e) {
        return sweep::next(w);
    }
    let y = angle::half_turn(0.5 * a - 0.5 * d, 0.5 * b + 0.5 * c, 0.5 * e);
    sweep::next(sweep::both(w, y, y))
}

// A sweep: each pair of axes once.
#[tactic(auto, using(crate::proofs::Times::once_more))]
fn level_sweep(x: Work) -> Work
    ensures { result ≡ sweep_by level_pair_of x }
{
    let mut w = x;
    for _ in 0..sweep::PAIRS {
        w = level_pair(w);
    }
    w
}

#[tactic(auto, using(crate::proofs::Times::once_more, crate::proofs::Times::stays), unfolding(crate::specs::PrincipalValues::levelled_of, crate::specs::PrincipalValues::level_step_of))]
fn levelled(f: [[f64; 3]; 3]) -> Work
    ensures { result ≡ levelled_of f }
{
    let mut w = sweep::start(f);
    for _ in 0..sweep::SWEEPS {
        if sweep::settled(w) {
            break;
        }
        w = level_sweep(w);
    }
    w
}

// The principal values of the lower triangle of f, and their axes as the rows of a matrix.
pub fn principal_of(f: [[f64; 3]; 3]) -> Principal
    ensures { result ≡ principal_of f }
{
    let w = levelled(mirrored(f));
    let m = w.m;
    let a = m.r0;
    let b = m.r1;
    let c = m.r2;
    let values = [a[0], b[1], c[2]];
    let axes = w.v;
    Principal { values, axes }
}

// Whether a test in floats shows that they pass the check; g is mirrored, and m the largest size in it.
fn surely(g: [[f64; 3]; 3], x: Principal, m: f64) -> bool
    ensures { result ≡ true → (mat_finite g ≡ true → mag m ≡ largest_in g) → mirrored_accepted g x ≡ true }
{
    let p = x.axes;
    let s = x.values;
    let q = tensor::transpose(tensor::of_rows(p));
    nearness::surely_near(q, s, q, g, m) & nearness::surely_orthogonal(q)
}

// The same without a doubt.
fn exactly(g: [[f64; 3]; 3], x: Principal, m: f64) -> bool
    ensures { (mat_finite g ≡ true → mag m ≡ largest_in g) → result ≡ mirrored_accepted g x }
{
    let p = x.axes;
    let s = x.values;
    let q = tensor::transpose(tensor::of_rows(p));
    tensor::mat_finite(g)
        & tensor::rows_finite(p)
        & tensor::row_finite(s)
        & nearness::near_all(q, s, q, g, m)
        & nearness::orthogonal(q)
}

// Whether they pass the check; signs are free.
pub fn principal_accepted(f: [[f64; 3]; 3], x: Principal) -> bool
    ensures { result ≡ principal_accepted f x }
{
    let g = mirrored(f);
    let m = check::largest(g);
    if surely(g, x, m) {
        return true;
    }
    exactly(g, x, m)
}
