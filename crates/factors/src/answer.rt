// The sweeps and the check as one: refusal 14 exactly where the check is missed.
ghost use Rattle.std.specs.Prelude.{◌≡◌};
ghost use Rattle.factors.specs.Answers.{refused_factors, factored_of, principals_of};

use crate::{Factors, FactorsAnswer, check, principal_values, sweep};
use tensor::{Rows, VectorAnswer};

// The refusal by the number n.
pub fn refused_factors(n: u8) -> FactorsAnswer
    ensures { result ≡ refused_factors n }
{
    let z = [0.0, 0.0, 0.0];
    let zeros = Rows {
        r0: z,
        r1: z,
        r2: z,
    };
    let none = Factors {
        u: zeros,
        sigma: z,
        vt: zeros,
    };
    FactorsAnswer {
        refusal: n,
        factors: none,
    }
}

// U, sigma and V^T of f.
pub fn factored(f: [[f64; 3]; 3]) -> FactorsAnswer
    ensures { result ≡ factored_of f }
{
    let x = sweep::factors_of(f);
    if check::accepted(f, x) {
        FactorsAnswer {
            refusal: 0,
            factors: x,
        }
    } else {
        refused_factors(answers::NOT_ACCEPTED)
    }
}

// The principal values of the lower triangle of f with the diagonal.
pub fn principals(f: [[f64; 3]; 3]) -> VectorAnswer
    ensures { result ≡ principals_of f }
{
    let x = principal_values::principal_of(f);
    if principal_values::principal_accepted(f, x) {
        let v = x.values;
        VectorAnswer {
            refusal: 0,
            vector: v,
        }
    } else {
        tensor::refused_vector(answers::NOT_ACCEPTED)
    }
}
