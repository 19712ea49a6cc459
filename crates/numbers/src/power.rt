ghost use Rattle.std.specs.Prelude.{◌≡◌, ℕ, ◌^◌, ◌<◌};
ghost use Rattle.numbers.specs.Power.{power_of, magnitude_of, powi_of};

// The size of g read as an i32.
pub fn magnitude(g: u32) -> u32
    ensures { result ≡ magnitude_of g }
{
    if g < 0x8000_0000 {
        g
    } else {
        std::num::wrapping_sub_u32(0, g)
    }
}

// r times b to the e-th, by halving e.
fn power(r: f64, b: f64, e: u32) -> f64
    ensures { (k : ℕ) → e < 2 ^ k → result ≡ power_of k r b e }
{
    if e == 0 {
        r
    } else if e % 2 == 1 {
        power(r * b, b * b, e / 2)
    } else {
        power(r, b * b, e / 2)
    }
}

// b to the g-th, g read as an i32.
pub fn powi(b: f64, g: u32) -> f64
    ensures { result ≡ powi_of b g }
{
    let r = power(1.0, b, magnitude(g));
    if g < 0x8000_0000 { r } else { 1.0 / r }
}
