// A reason as eleven words: kind, refusal, step, whose place, place, test, whether it held, branch, and the numbers as bits (docs/STEPS.md).
ghost use Rattle.std.specs.Prelude.{◌≡◌};
ghost use Rattle.record_why.specs.Words.{bound_number, held_number, reason_words, words_of, call_refusal};

use crate::Cause;
use model::Law;
use reason::{Bound, Reason};

fn bound_number(b: Bound) -> u64
    ensures { result ≡ bound_number b }
{
    match b {
        Bound::Neither => 0,
        Bound::Lower => 1,
        Bound::Upper => 2,
    }
}

fn held_number(held: bool) -> u64
    ensures { result ≡ held_number held }
{
    if held { 1 } else { 0 }
}

fn reason_words(law: Law, q: Reason) -> [u64; 11]
    ensures { result ≡ reason_words law q }
{
    match q {
        Reason::Tested(t, h, a, b) => [
            0,
            0,
            0,
            0,
            0,
            t as u64,
            held_number(h),
            model::branch(law, t, h),
            numbers::bits_of(a),
            numbers::bits_of(b),
            0,
        ],
        Reason::Zeros(t, h, a, b, c) => [
            1,
            0,
            0,
            0,
            0,
            t as u64,
            held_number(h),
            model::branch(law, t, h),
            numbers::bits_of(a),
            numbers::bits_of(b),
            numbers::bits_of(c),
        ],
        Reason::Flagged(t, h) => [
            2,
            0,
            0,
            0,
            0,
            t as u64,
            held_number(h),
            model::branch(law, t, h),
            0,
            0,
            0,
        ],
        Reason::Clamped(x, y, z) => [
            3,
            0,
            0,
            0,
            0,
            0,
            0,
            1,
            bound_number(x),
            bound_number(y),
            bound_number(z),
        ],
        Reason::Refused(n, k) => [4, n as u64, k as u64, 0, 0, 0, 0, 0, 0, 0, 0],
    }
}

// Of a model by its number. Where the call itself is refused, as a refusal without a step.
pub fn words(number: u64, w: Cause) -> [u64; 11]
    ensures { result ≡ words_of number w }
{
    match w {
        Cause::Told(q) => reason_words(model::law_of(number), q),
        Cause::Parameter(i) => [4, 1, 0, 1, i as u64, 0, 0, 0, 0, 0, 0],
        Cause::Record(i) => [4, 1, 0, 2, i as u64, 0, 0, 0, 0, 0, 0],
        Cause::Refused(n) => [4, n as u64, 0, 0, 0, 0, 0, 0, 0, 0, 0],
    }
}

// 0, or the number by which the call itself is refused.
pub fn call_refusal(w: Cause) -> u8
    ensures { result ≡ call_refusal w }
{
    match w {
        Cause::Told(_) => 0,
        Cause::Parameter(_) => 0,
        Cause::Record(_) => 0,
        Cause::Refused(n) => n,
    }
}
