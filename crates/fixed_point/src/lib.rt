// Numbers as whole multiples of a power of two in a u64: what the elementary functions work in (RULES, section 3).
#![tactic(auto)]

mod float;

ghost use Rattle.std.specs.Prelude.{◌≡◌, ◌*◌, ◌/◌, ◌^◌, ◌<◌};
ghost use Rattle.fixed_point.specs.Halved.{Halved};

pub use float::to_float;

// A product of two u64 in two halves.
#[derive(Drop)]
pub struct Wide {
    pub low: u64,
    pub high: u64,
}

// The whole product of two u64.
pub fn both_halves(u: u64, v: u64) -> Wide
    ensures { Halved (u * v) result }
{
    let u0 = u % 0x1_0000_0000;
    let u1 = u / 0x1_0000_0000;
    let v0 = v % 0x1_0000_0000;
    let v1 = v / 0x1_0000_0000;
    let w0 = u0 * v0;
    let t = u1 * v0 + w0 / 0x1_0000_0000;
    let w1 = t % 0x1_0000_0000 + u0 * v1;
    let high = u1 * v1 + t / 0x1_0000_0000 + w1 / 0x1_0000_0000;
    let low = w1 % 0x1_0000_0000 * 0x1_0000_0000 + w0 % 0x1_0000_0000;
    Wide { low, high }
}

// The upper half of the product of two u64.
pub fn mulhi(u: u64, v: u64) -> u64
    ensures { result ≡ u * v / 2 ^ 64 }
{
    let p = both_halves(u, v);
    p.high
}

// The digits m of a float with the exponent's field e, in units of 2^-53, rounded down.
pub fn fixed(e: u64, m: u64) -> u64
    requires { (m < 2 ^ 53) × (e < 1033) }
    ensures { result ≡ m * 2 ^ e / 2 ^ 1022 }
{
    if e >= 1022 {
        m << (e - 1022)
    } else {
        let s = 1022 - e;
        if s < 64 { m >> s } else { 0 }
    }
}
