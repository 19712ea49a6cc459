ghost use Rattle.std.specs.Prelude.{◌≡◌};
ghost use Rattle.exact.specs.Units.{mag};
ghost use Rattle.nearness.specs.Near.{near_row, near_all, orthogonal_of};

use crate::entry;

fn near_row(u: [f64; 3], s: [f64; 3], v: [[f64; 3]; 3], f: [f64; 3], m: f64) -> bool
    ensures { result ≡ near_row u s v f (mag m) }
{
    entry::near(u, s, v[0], f[0], m)
        & entry::near(u, s, v[1], f[1], m)
        & entry::near(u, s, v[2], f[2], m)
}

// Whether each entry of U sigma V^T lies within m / 2^40 of f, where u and v have the rows of U and V.
pub fn near_all(u: [[f64; 3]; 3], s: [f64; 3], v: [[f64; 3]; 3], f: [[f64; 3]; 3], m: f64) -> bool
    ensures { result ≡ near_all u s v f (mag m) }
{
    near_row(u[0], s, v, f[0], m) & near_row(u[1], s, v, f[1], m) & near_row(u[2], s, v, f[2], m)
}

// Whether u times its transpose lies within 2^-40 of the identity: what stands on one side of the diagonal stands on the other too.
pub fn orthogonal(u: [[f64; 3]; 3]) -> bool
    ensures { result ≡ orthogonal_of u }
{
    let ones = [1.0, 1.0, 1.0];
    let a = u[0];
    let b = u[1];
    let c = u[2];
    entry::near(a, ones, a, 1.0, 1.0)
        & entry::near(a, ones, b, 0.0, 1.0)
        & entry::near(a, ones, c, 0.0, 1.0)
        & entry::near(b, ones, b, 1.0, 1.0)
        & entry::near(b, ones, c, 0.0, 1.0)
        & entry::near(c, ones, c, 1.0, 1.0)
}
