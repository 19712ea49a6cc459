ghost use Rattle.std.specs.Prelude.{◌≡◌};
ghost use Rattle.exact.specs.Units.{mag};
ghost use Rattle.nearness.specs.Near.{near};
ghost use Rattle.nearness.specs.Terms.{TripleOf};

use crate::{Term, carries, float, multiply};

// 2^-20.
const SMALL: f64 = 9.5367431640625e-7;

// The exact product of three floats.
fn triple(a: f64, b: f64, c: f64) -> Term
    ensures { TripleOf a b c result }
{
    multiply::product(float::units(a), float::units(b), float::units(c))
}

// Whether the sum of the products u s v lies within m / 2^40 of f, exactly.
pub fn near(u: [f64; 3], s: [f64; 3], v: [f64; 3], f: f64, m: f64) -> bool
    ensures { result ≡ near u s v f (mag m) }
{
    carries::within(
        triple(u[0], s[0], v[0]),
        triple(u[1], s[1], v[1]),
        triple(u[2], s[2], v[2]),
        triple(-f, 1.0, 1.0),
        triple(m, SMALL, SMALL),
    )
}
