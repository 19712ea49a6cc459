// The formulas on three axes.
ghost use Rattle.std.specs.Prelude.{◌≡◌};
ghost use Rattle.numbers.specs.Floats.{is_number};
ghost use Rattle.tensor.specs.Axes.{all_of};
ghost use Rattle.walk.specs.Expr.{num, values};
ghost use Rattle.walk.specs.Walk.{holds, zeros};
ghost use Rattle.plasticity_drucker_prager.specs.Alpha.{dim};
ghost use Rattle.plasticity_drucker_prager.specs.Projection.{strain, deviatoric, back};

// A third of the gain is added to each logarithm.
pub fn strain(logs: [f64; 3], gain: f64) -> [f64; 3]
    ensures { result ≡ values (strain dim logs gain) }
{
    [
        logs[0] + gain / 3.0,
        logs[1] + gain / 3.0,
        logs[2] + gain / 3.0,
    ]
}

pub fn deviatoric(e: [f64; 3], trace: f64) -> [f64; 3]
    ensures { result ≡ values (deviatoric dim e (num trace)) }
{
    [e[0] - trace / 3.0, e[1] - trace / 3.0, e[2] - trace / 3.0]
}

// The strain less gamma times the deviatoric direction.
pub fn back(e: [f64; 3], d: [f64; 3], gamma: f64, norm: f64) -> [f64; 3]
    ensures { result ≡ values (back e d (num gamma) (num norm)) }
{
    [
        e[0] - gamma * (d[0] / norm),
        e[1] - gamma * (d[1] / norm),
        e[2] - gamma * (d[2] / norm),
    ]
}

// Zeros of either sign.
pub fn all_zero(d: [f64; 3]) -> bool
    ensures { result ≡ holds (zeros d) }
{
    (d[0] == 0.0) & (d[1] == 0.0) & (d[2] == 0.0)
}

// Whether no entry is a NaN.
pub fn all_numbers(v: [f64; 3]) -> bool
    ensures { result ≡ all_of is_number v }
{
    numbers::is_number(v[0]) & numbers::is_number(v[1]) & numbers::is_number(v[2])
}
