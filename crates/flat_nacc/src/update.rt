// The update of one flat particle.
ghost use Rattle.std.specs.Prelude.{◌≡◌, true};
ghost use Rattle.numbers.specs.Floats.{finite};
ghost use Rattle.walk.specs.Walk.{walk_result};
ghost use Rattle.flat.specs.Update.{updated_of};
ghost use Rattle.flat_nacc.specs.Nacc.{followed_of, run_walk, nacc_update};

use crate::{Stepped, branches};
use flat::{State, Updated};
use plasticity::Outcome;
use plasticity_nacc::{NaccArguments, NaccPlasticity};

// F, sigma and alpha are stored; inside the yield surface the state is as it came.
fn followed(q: Stepped, u: [[f64; 2]; 2], vt: [[f64; 2]; 2], s: State) -> Updated
    ensures { result ≡ followed_of q.outcome q.sigma u vt s }
{
    let o = q.outcome;
    let sigma = q.sigma;
    match o {
        Outcome::Untouched => flat::untouched(s),
        Outcome::Stored(alpha) => {
            let named = numbers::is_finite(alpha);
            let scalars = plasticity_nacc::scalars_of(alpha, s.scalars);
            flat::stored(u, sigma, vt, named, scalars, alpha, s)
        }
        Outcome::Refused(n) => flat::refuse(n, s),
    }
}

fn run(p: NaccPlasticity, u: [[f64; 2]; 2], vt: [[f64; 2]; 2], s: State) -> Updated
    requires { finite s.scalars.alpha ≡ true }
    ensures { result ≡ updated_of s (walk_result (run_walk p u vt s)) }
{
    let sigma = s.sigma;
    followed(branches::steps(p, sigma, s.scalars.alpha), u, vt, s)
}

// The update of one particle by the law that `with_m` makes of these arguments: untouched, or F, sigma and alpha are new,
// or the state comes back as it was with a refusal.
pub fn update_particle(a: NaccArguments, u: [[f64; 2]; 2], vt: [[f64; 2]; 2], s: State) -> Updated
    ensures { result ≡ nacc_update a u vt s }
{
    if a.parameters_finite() & flat::inputs_finite(u, vt, s) {
        let p = a.law();
        if p.moduli_finite() {
            run(p, u, vt, s)
        } else {
            flat::refuse(answers::NO_NUMBER, s)
        }
    } else {
        flat::refuse(answers::NOT_FINITE, s)
    }
}
