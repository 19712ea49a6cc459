// The formulas on two axes.
ghost use Rattle.std.specs.Prelude.{◌≡◌};
ghost use Rattle.numbers.specs.Floats.{is_number};
ghost use Rattle.tensor.specs.Axes.{all_of};
ghost use Rattle.walk.specs.Expr.{num, values};
ghost use Rattle.walk.specs.Walk.{holds, zeros};
ghost use Rattle.plasticity_drucker_prager.specs.Projection.{strain, deviatoric, back};
ghost use Rattle.flat_drucker_prager.specs.DruckerPrager.{dim};

// Half of the gain is added to each logarithm.
pub fn strain(logs: [f64; 2], gain: f64) -> [f64; 2]
    ensures { result ≡ values (strain dim logs gain) }
{
    [logs[0] + gain / 2.0, logs[1] + gain / 2.0]
}

pub fn deviatoric(e: [f64; 2], trace: f64) -> [f64; 2]
    ensures { result ≡ values (deviatoric dim e (num trace)) }
{
    [e[0] - trace / 2.0, e[1] - trace / 2.0]
}

// The strain less gamma times the deviatoric direction.
pub fn back(e: [f64; 2], d: [f64; 2], gamma: f64, norm: f64) -> [f64; 2]
    ensures { result ≡ values (back e d (num gamma) (num norm)) }
{
    [e[0] - gamma * (d[0] / norm), e[1] - gamma * (d[1] / norm)]
}

// Zeros of either sign.
pub fn all_zero(d: [f64; 2]) -> bool
    ensures { result ≡ holds (zeros d) }
{
    (d[0] == 0.0) & (d[1] == 0.0)
}

// Whether no entry is a NaN.
pub fn all_numbers(v: [f64; 2]) -> bool
    ensures { result ≡ all_of is_number v }
{
    numbers::is_number(v[0]) & numbers::is_number(v[1])
}
