ghost use Rattle.std.specs.Prelude.{◌≡◌};
ghost use Rattle.decomposed.specs.Number.{mat_number};

use tensor::row_number;

// Whether no entry is a NaN.
pub fn mat_number(m: [[f64; 3]; 3]) -> bool
    ensures { result ≡ mat_number m }
{
    row_number(m[0]) & row_number(m[1]) & row_number(m[2])
}
