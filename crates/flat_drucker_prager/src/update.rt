// The update of one flat particle.
ghost use Rattle.std.specs.Prelude.{◌≡◌};
ghost use Rattle.walk.specs.Walk.{walk_result};
ghost use Rattle.flat.specs.Update.{updated_of};
ghost use Rattle.flat_drucker_prager.specs.DruckerPrager.{moved_walk, followed_of, run_walk, drucker_update};

use crate::{Projected, projection};
use flat::{State, Updated};
use plasticity::Outcome;
use plasticity_drucker_prager::{DruckerPragerPlasticity, Measured};
use reason::Number;

// New singular values: determinants, logarithms, hardening, recomposed F.
fn moved(
    p: DruckerPragerPlasticity,
    sigma: [f64; 2],
    dq: f64,
    u: [[f64; 2]; 2],
    vt: [[f64; 2]; 2],
    s: State,
) -> Updated
    ensures { result ≡ updated_of s (walk_result (moved_walk p sigma dq u vt s)) }
{
    let old = s.sigma;
    match p.measured(flat::product(old), flat::product(sigma), dq, s.scalars) {
        Measured::Values(d, h, gain) => {
            let named = numbers::is_finite(d) & numbers::is_finite(h) & numbers::is_finite(gain);
            let scalars = plasticity_drucker_prager::scalars_of(d, h, gain, s.scalars);
            flat::stored(u, sigma, vt, named, scalars, dq, s)
        }
        Measured::Refused(n, _) => flat::refuse(n, s),
    }
}

fn followed(
    p: DruckerPragerPlasticity,
    q: Projected,
    u: [[f64; 2]; 2],
    vt: [[f64; 2]; 2],
    s: State,
) -> Updated
    ensures { result ≡ followed_of q.outcome p q.sigma u vt s }
{
    let o = q.outcome;
    let sigma = q.sigma;
    match o {
        Outcome::Untouched => flat::untouched(s),
        Outcome::Stored(dq) => moved(p, sigma, dq, u, vt, s),
        Outcome::Refused(n) => flat::refuse(n, s),
    }
}

// The steps in the law's order: phase, alpha, projection, determinants, recomposed F.
fn run(p: DruckerPragerPlasticity, u: [[f64; 2]; 2], vt: [[f64; 2]; 2], s: State) -> Updated
    ensures { result ≡ updated_of s (walk_result (run_walk p u vt s)) }
{
    if p.stays(s.scalars.phase) {
        flat::untouched(s)
    } else {
        match p.alpha_on_path(s.scalars.plastic_hardening) {
            Number::Value(a) => {
                let sigma = s.sigma;
                let q = projection::projected(p, sigma, s.scalars.log_gain, a);
                followed(p, q, u, vt, s)
            }
            Number::Refused(n, _) => flat::refuse(n, s),
        }
    }
}

// The update of one particle: untouched, or F, sigma, plastic determinant, plastic hardening and log gain are new, or
// the state comes back as it was with a refusal.
pub fn update_particle(
    p: DruckerPragerPlasticity,
    u: [[f64; 2]; 2],
    vt: [[f64; 2]; 2],
    s: State,
) -> Updated
    ensures { result ≡ drucker_update p u vt s }
{
    if p.parameters_finite() & flat::inputs_finite(u, vt, s) {
        run(p, u, vt, s)
    } else {
        flat::refuse(answers::NOT_FINITE, s)
    }
}
