// The root by hand, one binary digit after the other, the highest first: shift, compare, subtract.
ghost use Rattle.std.specs.Prelude.{◌≡◌, ℕ, suc, ◌+◌, ◌*◌, ◌/◌, ◌^◌, ◌<◌, ◌≤◌};
ghost use Rattle.square_root.specs.Digits.{Going, Nearest, RootAt};

// A root begun: step is the weight of the last digit worked; rest * step is what the square of the digits leaves; trial is
// what the next digit takes from rest + rest where it is 1: twice the digits, and half of step.
#[derive(Drop)]
struct Begun {
    rest: u64,
    trial: u64,
    step: u64,
}

// The next digit: 1 where trial can be taken from the rest, doubled. A difference of 2^63 or more has gone below zero.
// It is worked before the test, and the next trial beside it from what a 0 leaves, so that the choice needs no jump and a
// digit takes a processor three steps: double, subtract, choose.
fn digit(s: Begun) -> Begun
    requires { (s.rest < 2 ^ 56) × (s.trial < 2 ^ 56) × (s.step ≤ 2 ^ 54) × (s.step / 4 ≤ s.trial) }
    ensures { (N k : ℕ) → Going N (suc k) s → Going N k result }
{
    let trial = s.trial - (s.step >> 2);
    let rest = s.rest + s.rest;
    let d = std::num::wrapping_sub_u64(rest, s.trial);
    if d < 0x8000_0000_0000_0000 {
        Begun {
            rest: d,
            trial: trial + s.step,
            step: s.step >> 1,
        }
    } else {
        Begun {
            rest,
            trial,
            step: s.step >> 1,
        }
    }
}

// The root of n * 2^52 to the nearest, from 54 digits of that of n * 2^54: the last is the half of the result's last. A tie
// cannot be, so where it is 1 the result is the next one up.
fn root(n: u64) -> u64
    requires { (2 ^ 52 ≤ n) × (n < 2 ^ 54) }
    ensures { Nearest n result }
{
    let mut s = Begun {
        rest: n,
        trial: 0x20_0000_0000_0000,
        step: 0x40_0000_0000_0000,
    };
    while 1 < s.step {
        s = digit(s);
    }
    s.trial + 1 >> 2
}

// The root of q * 2^k / 2^2148, q of 53 digits.
pub(crate) fn of_digits(q: u64, k: u64) -> f64
    requires { (2 ^ 52 ≤ q) × (q < 2 ^ 53) × (54 ≤ k) × (k < 4000) }
    ensures { RootAt q k result }
{
    let r = root(q << k % 2);
    f64::from_bits((k / 2 - 26 << 52) + r)
}
