// The update of one particle.
ghost use Rattle.std.specs.Prelude.{◌≡◌, true, ◌&&◌};
ghost use Rattle.numbers.specs.Floats.{finite};
ghost use Rattle.physics.specs.Norm.{norm_of};
ghost use Rattle.tensor.specs.Matrix.{row_sub_of};
ghost use Rattle.walk.specs.Expr.{num, nums};
ghost use Rattle.walk.specs.Walk.{walk_result};
ghost use Rattle.flat.specs.Update.{updated_of};
ghost use Rattle.flat_rankine.specs.Rankine.{hardened_of, exps_walk, moved_walk, followed_of, run_walk, arguments_update};

use crate::{Branch, Projected, projection};
use answers::Answer;
use flat::{State, Updated};
use plasticity::Scalars;
use plasticity_rankine::{RankineArguments, RankinePlasticity};

// The plastic hardening is new.
fn hardened(h: f64, x: Scalars) -> Scalars
    ensures { result ≡ hardened_of h x }
{
    Scalars {
        phase: x.phase,
        plastic_determinant: x.plastic_determinant,
        plastic_hardening: h,
        elastic_hardening: x.elastic_hardening,
        log_gain: x.log_gain,
        alpha: x.alpha,
    }
}

fn norm(old: [f64; 2], new: [f64; 2]) -> Answer
    ensures { result ≡ norm_of (row_sub_of old new) }
{
    let change = flat::row_sub(old, new);
    square_root::sqrt_on_path(flat::dot(change, change))
}

// Sigma is the exponentials of the strains.
fn exps(e: [f64; 2], u: [[f64; 2]; 2], vt: [[f64; 2]; 2], h: f64, s: State) -> Updated
    ensures { result ≡ updated_of s (walk_result (exps_walk e u vt (num h) s)) }
{
    match exponential::exp_on_path(e[0]) {
        Answer::Value(x) => match exponential::exp_on_path(e[1]) {
            Answer::Value(y) => {
                let sigma = [x, y];
                let scalars = hardened(h, s.scalars);
                flat::stored(u, sigma, vt, numbers::is_finite(h), scalars, h, s)
            }
            Answer::Refused(n) => flat::refuse(n, s),
        },
        Answer::Refused(n) => flat::refuse(n, s),
    }
}

// Strains that moved: hardening, exponentials, F. A NaN in the new strains is in the norm. The minimum would hide one in
// the hardening: it is refused before.
fn moved(
    p: RankinePlasticity,
    old: [f64; 2],
    new: [f64; 2],
    u: [[f64; 2]; 2],
    vt: [[f64; 2]; 2],
    s: State,
) -> Updated
    requires { finite p.tensile_strength ≡ true }
    ensures { result ≡ updated_of s (walk_result (moved_walk p old (nums new) u vt s)) }
{
    match norm(old, new) {
        Answer::Value(size) => {
            let grown = s.scalars.plastic_hardening + p.softening_rate * size;
            if numbers::is_number(grown) {
                exps(new, u, vt, numbers::min(grown, p.tensile_strength), s)
            } else {
                flat::refuse(answers::NO_NUMBER, s)
            }
        }
        Answer::Refused(n) => flat::refuse(n, s),
    }
}

// Capped only where a strain moves.
fn followed(
    p: RankinePlasticity,
    q: Projected,
    e: [f64; 2],
    u: [[f64; 2]; 2],
    vt: [[f64; 2]; 2],
    s: State,
) -> Updated
    requires { finite p.tensile_strength ≡ true }
    ensures { result ≡ followed_of q.branch p e q.strains u vt s }
{
    let b = q.branch;
    let new = q.strains;
    match b {
        Branch::Untouched => flat::untouched(s),
        Branch::Moved => moved(p, e, new, u, vt, s),
        Branch::Refused(n) => flat::refuse(n, s),
    }
}

// The steps in the law's order: logarithms, branch, hardening, exponentials, recomposed F. Of finite numbers the softened
// strength is no NaN.
fn run(
    p: RankinePlasticity,
    sigma: [f64; 2],
    u: [[f64; 2]; 2],
    vt: [[f64; 2]; 2],
    s: State,
) -> Updated
    requires { finite p.tensile_strength && finite s.scalars.plastic_hardening ≡ true }
    ensures { result ≡ updated_of s (walk_result (run_walk p sigma u vt s)) }
{
    match logarithm::ln_on_path(sigma[0]) {
        Answer::Value(x) => match logarithm::ln_on_path(sigma[1]) {
            Answer::Value(y) => {
                let e = [x, y];
                let soft = p.soft_strength(s.scalars.plastic_hardening);
                followed(p, projection::projected(p, e, soft), e, u, vt, s)
            }
            Answer::Refused(n) => flat::refuse(n, s),
        },
        Answer::Refused(n) => flat::refuse(n, s),
    }
}

// The update of one flat particle by the law that `new` makes of the arguments: untouched, or F, sigma and the plastic hardening
// are new, or the state comes back as it was with a refusal.
pub fn update_particle(
    law: RankineArguments,
    u: [[f64; 2]; 2],
    vt: [[f64; 2]; 2],
    s: State,
) -> Updated
    ensures { result ≡ arguments_update law u vt s }
{
    if law.parameters_finite() & flat::inputs_finite(u, vt, s) {
        let p = law.law();
        if p.moduli_finite() {
            let sigma = s.sigma;
            run(p, sigma, u, vt, s)
        } else {
            flat::refuse(answers::NO_NUMBER, s)
        }
    } else {
        flat::refuse(answers::NOT_FINITE, s)
    }
}
