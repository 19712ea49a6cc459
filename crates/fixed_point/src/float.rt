ghost use Rattle.std.specs.Prelude.{◌≡◌, ◌≤◌};
ghost use Rattle.fixed_point.specs.ToFloat.{FloatOf};

// The float of l * 2^-u with the sign that `negative` says, cut to 53 digits; +0 where l is 0.
pub fn to_float(l: u64, u: u64, negative: bool) -> f64
    requires { u ≤ 1000 }
    ensures { FloatOf l u negative result }
{
    if l == 0 {
        return 0.0;
    }
    let z = u64::leading_zeros(l);
    let pattern = (1085 - u - (z as u64)) * 0x10_0000_0000_0000 + (l << z) / 2048;
    if negative {
        f64::from_bits(0x8000_0000_0000_0000 + pattern)
    } else {
        f64::from_bits(pattern)
    }
}
