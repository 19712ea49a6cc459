// The projection by itself.
ghost use Rattle.std.specs.Prelude.{◌≡◌};
ghost use Rattle.flat_drucker_prager.specs.Project.{returned_of, project_of};

use crate::{Projected, projection};
use plasticity::Outcome;
use plasticity_drucker_prager::DruckerPragerPlasticity;

// Results that are finite.
fn returned(q: Projected) -> Projected
    ensures { result ≡ returned_of q.outcome q.sigma }
{
    let o = q.outcome;
    let sigma = q.sigma;
    match o {
        Outcome::Untouched => {
            if flat::row_finite(sigma) {
                Projected {
                    outcome: Outcome::Untouched,
                    sigma,
                }
            } else {
                projection::refused_projection(answers::NO_NUMBER)
            }
        }
        Outcome::Stored(dq) => {
            if flat::row_finite(sigma) & numbers::is_finite(dq) {
                Projected {
                    outcome: Outcome::Stored(dq),
                    sigma,
                }
            } else {
                projection::refused_projection(answers::NO_NUMBER)
            }
        }
        Outcome::Refused(n) => Projected {
            outcome: Outcome::Refused(n),
            sigma,
        },
    }
}

// The projection of singular values.
pub fn project_deformation_gradient(
    p: DruckerPragerPlasticity,
    singular_values: [f64; 2],
    log_vol_gain: f64,
    alpha: f64,
) -> Projected
    ensures { result ≡ project_of p singular_values log_vol_gain alpha }
{
    if p.parameters_finite()
        & flat::row_finite(singular_values)
        & numbers::is_finite(log_vol_gain)
        & numbers::is_finite(alpha)
    {
        returned(projection::projected(p, singular_values, log_vol_gain, alpha))
    } else {
        projection::refused_projection(answers::NOT_FINITE)
    }
}
