// Bit patterns and the numbers that they stand for (RULES, section 7).
ghost use Rattle.std.specs.Prelude.{◌≡◌};
ghost use Rattle.std.specs.Float.Ieee as Ieee;
ghost use Rattle.std.specs.Float.{binary64};

// The number that a bit pattern stands for; every NaN pattern is the NaN.
pub fn float_of(n: u64) -> f64
    ensures { result ≡ Ieee.of_bits binary64 n }
{
    if 0x7ff0_0000_0000_0000 < n % 0x8000_0000_0000_0000 {
        0.0 / 0.0
    } else {
        f64::from_bits(n)
    }
}

// The pattern of a number; of a NaN 7ff8000000000000.
pub fn bits_of(x: f64) -> u64
    ensures { result ≡ Ieee.to_bits binary64 x }
{
    if x == x {
        f64::to_bits(x)
    } else {
        0x7ff8_0000_0000_0000
    }
}
