// What every flat law shares: the inputs' test, and what it hands back.
ghost use Rattle.std.specs.Prelude.{◌≡◌};
ghost use Rattle.flat.specs.Update.{inputs_finite, refused, untouched_of, kept_of};

use crate::{State, Updated, matrix};
use plasticity::{Outcome, Scalars};

// Whether every float of a flat record is finite.
pub fn inputs_finite(u: [[f64; 2]; 2], vt: [[f64; 2]; 2], s: State) -> bool
    ensures { result ≡ inputs_finite u vt s }
{
    let f = s.f;
    let sigma = s.sigma;
    let scalars = s.scalars;
    let state = matrix::rows_finite(f)
        & matrix::row_finite(sigma)
        & plasticity::scalars_finite(scalars);
    matrix::mat_finite(u) & matrix::mat_finite(vt) & state
}

// The refusal by the number n: the state is handed back as it came.
pub fn refuse(n: u8, s: State) -> Updated
    ensures { result ≡ refused n s }
{
    Updated {
        state: s,
        outcome: Outcome::Refused(n),
    }
}

pub fn untouched(s: State) -> Updated
    ensures { result ≡ untouched_of s }
{
    Updated {
        state: s,
        outcome: Outcome::Untouched,
    }
}

// The results are stored where all are finite: F, sigma and the scalars that the law names, which `named` tells; else 3.
pub fn stored(
    u: [[f64; 2]; 2],
    sigma: [f64; 2],
    vt: [[f64; 2]; 2],
    named: bool,
    scalars: Scalars,
    amount: f64,
    s: State,
) -> Updated
    ensures { result ≡ kept_of u sigma vt named scalars amount s }
{
    let f = matrix::recompose(u, sigma, vt);
    if (matrix::mat_finite(f) & matrix::row_finite(sigma)) & named {
        Updated {
            state: State {
                f: matrix::to_rows(f),
                sigma,
                scalars,
            },
            outcome: Outcome::Stored(amount),
        }
    } else {
        refuse(answers::NO_NUMBER, s)
    }
}
