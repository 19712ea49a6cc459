ghost use Rattle.std.specs.Prelude.{◌≡◌};
ghost use Rattle.tensor.specs.Number.{row_number};

// Whether no entry is a NaN.
pub fn row_number(a: [f64; 3]) -> bool
    ensures { result ≡ row_number a }
{
    numbers::is_number(a[0]) & numbers::is_number(a[1]) & numbers::is_number(a[2])
}
