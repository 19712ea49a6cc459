// The sine of every number from -8 to 8, within 2^-45 (RULES, section 3), by its own series: in floats from -1 to 1, else in whole numbers.
#![tactic(auto)]

ghost use Rattle.std.specs.Prelude.{◌≡◌, true, Float, ◌+◌, ◌^◌, ◌≤◌, ◌<◌};
ghost use Rattle.answers.specs.declared.Answer.TheVariants.{Value};
ghost use Rattle.answers.specs.Range.{in_range, bare, on_path};
ghost use Rattle.series.specs.SinNear.{SinNear};
ghost use Rattle.sine.specs.Sine.{step_of, nested, plusses, minuses, eighth_of, plus_of, minus_of, difference_of, short_of, low, high, sin_of, sin_ranged};

use answers::Answer;

// The series up to x^15 / 15!, nested by y: (-1)^k / (2k+1)! for k = 7, 6, .. 1.
fn short(x: f64) -> f64
    ensures { result ≡ short_of x }
{
    let y = x * x;
    let h6 = 1.6059043836821613e-10 + y * -7.647163731819816e-13;
    let h5 = -2.505210838544172e-8 + y * h6;
    let h4 = 2.7557319223985893e-6 + y * h5;
    let h3 = -0.0001984126984126984 + y * h4;
    let h2 = 0.008333333333333333 + y * h3;
    let h1 = -0.16666666666666666 + y * h2;
    x + x * y * h1
}

// One step of a nested sum: c + h * z, z in units of 2^-64.
fn step(c: u64, h: u64, z: u64) -> u64
    requires { c + h < 2 ^ 64 }
    ensures { (result ≡ step_of c h z) × (result ≤ c + h) }
{
    c + fixed_point::mulhi(h, z)
}

// 8^(2k+1) / (2k+1)! in units of 2^-54 for k = 0, 2, .. 20, nested by z.
fn plus(z: u64) -> u64
    ensures { result ≡ nested z plusses }
{
    let h9 = step(3397914, 5726, z);
    let h8 = step(1314933075, h9, z);
    let h7 = step(315275750669, h8, z);
    let h6 = step(43875670043839, h7, z);
    let h5 = step(3252112652663480, h6, z);
    let h4 = step(114046255231587494, h5, z);
    let h3 = step(1590410668659247484, h4, z);
    let h2 = step(6662950945847823934, h3, z);
    let h1 = step(4919131752989213764, h2, z);
    step(144115188075855872, h1, z)
}

// The same for k = 1, 3, .. 21.
fn minus(z: u64) -> u64
    ensures { result ≡ nested z minuses }
{
    let h9 = step(146738, 202, z);
    let h8 = step(70719089, h9, z);
    let h7 = step(21696395744, h8, z);
    let h6 = step(4000061086617, h7, z);
    let h5 = step(411334406660993, h6, z);
    let h4 = step(21341989283104092, h5, z);
    let h3 = step(484696584734246852, h4, z);
    let h2 = step(3876626004856915743, h3, z);
    let h1 = step(7495819814078801926, h2, z);
    step(1537228672809129301, h1, z)
}

// An eighth of the number with the exponent's field e and the digits m, in units of 2^-64.
fn eighth(e: u64, m: u64) -> u64
    requires { m < 2 ^ 53 }
    ensures { result ≡ eighth_of e m }
{
    if e >= 1026 {
        0xffff_ffff_ffff_fffe
    } else {
        2 * fixed_point::fixed(e + 7, m)
    }
}

// The float of a - c, both in units of 2^-54, with the sign turned where `negative` says so.
fn difference(a: u64, c: u64, negative: bool) -> f64
    ensures { result ≡ difference_of a c negative }
{
    if a >= c {
        fixed_point::to_float(a - c, 54, negative)
    } else {
        fixed_point::to_float(c - a, 54, !negative)
    }
}

// The sine at 8 v, v in units of 2^-64.
fn at_eighth(v: u64, negative: bool) -> f64
    ensures { result ≡ difference_of (plus_of v) (minus_of v) negative }
{
    let y = fixed_point::mulhi(v, v);
    let z = fixed_point::mulhi(y, y);
    let a = fixed_point::mulhi(plus(z), v);
    let c = fixed_point::mulhi(fixed_point::mulhi(minus(z), y), v);
    difference(a, c, negative)
}

// The sine of a number in the range.
fn sin_value(x: f64) -> f64
    requires { in_range low high x ≡ true }
    ensures { result ≡ sin_of x }
{
    if answers::in_range(-1.0, 1.0, x) {
        return short(x);
    }
    let b = numbers::bits_of(x);
    let e = b % 0x8000_0000_0000_0000 / 0x10_0000_0000_0000;
    let m = 0x10_0000_0000_0000 + b % 0x10_0000_0000_0000;
    at_eighth(eighth(e, m), b >= 0x8000_0000_0000_0000)
}

// sin x, within 2^-45 of the exact value. A NaN or an infinity is refused by 1, a number below the range by 2, above it by 10.
pub fn sin(x: f64) -> Answer
    ensures { (result ≡ bare x (sin_ranged x)) × ((v : Float) → result ≡ Value v → SinNear x v) }
{
    answers::bare(x, sin_on_path(x))
}

// sin x within a law: a NaN is refused by 3, what lies below the range by 2, above it by 10. What lies in the range is a number:
// that isn't tested again.
pub fn sin_on_path(x: f64) -> Answer
    ensures { result ≡ on_path x (sin_ranged x) }
{
    if answers::in_range(-8.0, 8.0, x) {
        Answer::Value(sin_value(x))
    } else {
        answers::on_path(x, answers::outside(-8.0, 8.0, x))
    }
}
