// A value's whole number of 2^-30, from its bits.
ghost use Rattle.std.specs.Prelude.{◌≡◌, ◌*◌, ◌/◌, ◌%◌, ◌^◌, ◌<◌, ◌≤◌};
ghost use Rattle.std.specs.Float.Ieee as Ieee;
ghost use Rattle.std.specs.Float.{binary64};
ghost use Rattle.report.specs.Column.{word};
ghost use Rattle.report.specs.Whole.{whole_of};

// The pattern of 2^20.
pub const BOUND: u64 = 0x4130_0000_0000_0000;

// The digits m of a float with the exponent's field e, in units of 2^-30, rounded down.
fn cut(e: u64, m: u64) -> u64
    requires { (m < 2 ^ 53) × (e < 1044) }
    ensures { result ≡ m * 2 ^ e / 2 ^ 1045 }
{
    let s = 1045 - e;
    if s < 64 { m >> s } else { 0 }
}

// The whole number at or below the value of a pattern within 2^20 of zero. Below zero the digits are those of the next size down,
// since of -(u + 1) units the floor is one below the negated floor of u.
pub fn whole(n: u64) -> u64
    requires { n % 2 ^ 63 ≤ 0x4130_0000_0000_0000 }
    ensures { result ≡ word (whole_of (Ieee.of_bits binary64 n)) }
{
    let size = n % 0x8000_0000_0000_0000;
    let e = size / 0x10_0000_0000_0000;
    let m = 0x10_0000_0000_0000 + size % 0x10_0000_0000_0000;
    if n < 0x8000_0000_0000_0000 {
        cut(e, m)
    } else if size == 0 {
        0
    } else {
        0xffff_ffff_ffff_ffff - cut(e, m - 1)
    }
}
