// The turns that bring a matrix nearer to a diagonal. Nothing is proved of how near: the check judges what comes out.
ghost use Rattle.std.specs.Prelude.{◌≡◌};
ghost use Rattle.factors.specs.Turns.{size_of, tiny_of, quarter_of, doubled_of, steep_of, back_of, half_turn_of, after_of};

use crate::Turn;

// The root of 1/2.
const ROOT: f64 = 0.7071067811865476;

pub fn size(x: f64) -> f64
    ensures { result ≡ size_of x }
{
    if x < 0.0 { -x } else { x }
}

// Whether x is 0 or at most e in size.
pub fn tiny(x: f64, e: f64) -> bool
    ensures { result ≡ tiny_of x e }
{
    (x == 0.0) | (size(x) <= e)
}

// Near the tangent of a quarter of the angle with the tangent r, r from -1 to 1: nearer the smaller r is.
fn quarter(r: f64) -> f64
    ensures { result ≡ quarter_of r }
{
    let z = r * r;
    r * (0.25 - z * (0.0765838623046875 - z * (0.035247802734375 - z * 0.0097808837890625)))
}

// By twice the angle with the tangent t. Whatever t is, the squares of both add up to 1.
fn doubled(t: f64) -> Turn
    ensures { result ≡ doubled_of t }
{
    let q = t * t;
    let i = 1.0 / (1.0 + q);
    Turn {
        c: (1.0 - q) * i,
        s: (t + t) * i,
    }
}

// The turn t with an eighth of a circle taken off, or given where r is below 0.
fn steep(r: f64, t: Turn) -> Turn
    ensures { result ≡ steep_of r t }
{
    let c = t.c;
    let s = t.s;
    if r < 0.0 {
        Turn {
            c: ROOT * (c - s),
            s: ROOT * (c + s),
        }
    } else {
        Turn {
            c: ROOT * (c + s),
            s: ROOT * (s - c),
        }
    }
}

pub fn back(t: Turn) -> Turn
    ensures { result ≡ back_of t }
{
    Turn { c: t.c, s: -t.s }
}

// Back by half the angle with the tangent y / x; by nothing where y is at most e in size.
pub fn half_turn(x: f64, y: f64, e: f64) -> Turn
    ensures { result ≡ half_turn_of x y e }
{
    if tiny(y, e) {
        return Turn { c: 1.0, s: -0.0 };
    }
    if size(x) < size(y) {
        let r = x / y;
        steep(r, doubled(quarter(r)))
    } else {
        back(doubled(quarter(y / x)))
    }
}

// By the angles of both.
pub fn after(a: Turn, b: Turn) -> Turn
    ensures { result ≡ after_of a b }
{
    let c = a.c * b.c - a.s * b.s;
    let s = a.s * b.c + a.c * b.s;
    Turn { c, s }
}
