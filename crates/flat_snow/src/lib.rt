// Snow in two axes (ticket 13; plasticity_snow.rs with DIM = 2): each of the two singular values is clamped.
#![tactic(auto)]

ghost use Rattle.std.specs.Prelude.{◌≡◌, true, ◌&&◌};
ghost use Rattle.numbers.specs.Floats.{finite};
ghost use Rattle.plasticity_snow.specs.Clamp.{clamped_of, parameters_finite};
ghost use Rattle.plasticity_snow.specs.Over.{scalars_of};
ghost use Rattle.walk.specs.Walk.{walk_result};
ghost use Rattle.flat.specs.Update.{inputs_finite, kept_of, updated_of};
ghost use Rattle.flat_snow.specs.Snow.{run_walk, snow_update};

use answers::Answer;
use flat::{State, Updated};
use plasticity::Scalars;
use plasticity_snow::SnowPlasticity;

// The bare clamp of each singular value, with no refusal.
pub fn clamped(law: SnowPlasticity, sigma: [f64; 2]) -> [f64; 2]
    ensures { result ≡ clamped_of law sigma }
{
    [law.clamp(sigma[0]), law.clamp(sigma[1])]
}

// Plastic determinant and elastic hardening are new.
fn store(
    u: [[f64; 2]; 2],
    sigma: [f64; 2],
    vt: [[f64; 2]; 2],
    d: f64,
    hardening: f64,
    s: State,
) -> Updated
    ensures { result ≡ kept_of u sigma vt (finite d && finite hardening) (scalars_of d hardening s.scalars) hardening s }
{
    let scalars = Scalars {
        phase: s.scalars.phase,
        plastic_determinant: d,
        plastic_hardening: s.scalars.plastic_hardening,
        elastic_hardening: hardening,
        log_gain: s.scalars.log_gain,
        alpha: s.scalars.alpha,
    };
    let named = numbers::is_finite(d) & numbers::is_finite(hardening);
    flat::stored(u, sigma, vt, named, scalars, hardening, s)
}

// The steps in the law's order. Of finite inputs the clamp hides no NaN; one in the determinant is in what the exponential is given.
fn run(law: SnowPlasticity, u: [[f64; 2]; 2], vt: [[f64; 2]; 2], s: State) -> Updated
    requires { parameters_finite law && inputs_finite u vt s ≡ true }
    ensures { result ≡ updated_of s (walk_result (run_walk law u vt s)) }
{
    let sigma = s.sigma;
    let new = clamped(law, sigma);
    let d = s.scalars.plastic_determinant * (flat::product(sigma) / flat::product(new));
    match exponential::exp_on_path(law.hardening_coeff * (1.0 - d)) {
        Answer::Value(h) => store(u, new, vt, d, h, s),
        Answer::Refused(n) => flat::refuse(n, s),
    }
}

// The update of one particle: F, sigma, plastic determinant and elastic hardening are new, or the state comes back as it was with a
// refusal.
pub fn update_particle(
    law: SnowPlasticity,
    u: [[f64; 2]; 2],
    vt: [[f64; 2]; 2],
    s: State,
) -> Updated
    ensures { result ≡ snow_update law u vt s }
{
    if law.parameters_finite() & flat::inputs_finite(u, vt, s) {
        run(law, u, vt, s)
    } else {
        flat::refuse(answers::NOT_FINITE, s)
    }
}
