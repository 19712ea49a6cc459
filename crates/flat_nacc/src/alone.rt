// The projection of F by itself.
ghost use Rattle.std.specs.Prelude.{◌≡◌};
ghost use Rattle.flat_nacc.specs.Project.{particle_of, results_of, project_of};

use crate::{Results, update};
use flat::{Rows, State, Updated};
use plasticity::{Outcome, Scalars};
use plasticity_nacc::NaccArguments;

// A particle of which no step asks more.
fn particle(f: [[f64; 2]; 2], sigma: [f64; 2], alpha: f64) -> State
    ensures { result ≡ particle_of f sigma alpha }
{
    State {
        f: flat::to_rows(f),
        sigma,
        scalars: Scalars {
            phase: 0.0,
            plastic_determinant: 0.0,
            plastic_hardening: 0.0,
            elastic_hardening: 0.0,
            log_gain: 0.0,
            alpha,
        },
    }
}

fn handed_out(v: Updated) -> Results
    ensures { result ≡ results_of v }
{
    let outcome = v.outcome;
    let s = v.state;
    let f = s.f;
    let sigma = s.sigma;
    match outcome {
        Outcome::Untouched => Results {
            outcome: Outcome::Untouched,
            f,
            sigma,
        },
        Outcome::Stored(alpha) => Results {
            outcome: Outcome::Stored(alpha),
            f,
            sigma,
        },
        Outcome::Refused(n) => {
            let z = [0.0, 0.0];
            Results {
                outcome: Outcome::Refused(n),
                f: Rows { r0: z, r1: z },
                sigma: z,
            }
        }
    }
}

// The projection of F, given with its U, sigma and V^T, by the law that `with_m` makes of these arguments.
pub fn project_deformation_gradient(
    a: NaccArguments,
    f: [[f64; 2]; 2],
    u: [[f64; 2]; 2],
    sigma: [f64; 2],
    vt: [[f64; 2]; 2],
    alpha: f64,
) -> Results
    ensures { result ≡ project_of a f u sigma vt alpha }
{
    handed_out(update::update_particle(a, u, vt, particle(f, sigma, alpha)))
}
