// The projection: the branch taken and worked.
ghost use Rattle.std.specs.Prelude.{◌≡◌};
ghost use Rattle.physics.specs.Norm.{norm_of};
ghost use Rattle.walk.specs.Expr.{num};
ghost use Rattle.walk.specs.Walk.{exp, asks, end, walk_result};
ghost use Rattle.plasticity_drucker_prager.specs.Projection.{yield_walk, strained_walk, project_walk};
ghost use Rattle.flat_drucker_prager.specs.DruckerPrager.{dim, refused_projection, projected_of, tip_of, surfaced_of};

use crate::{Projected, choice};
use answers::Answer;
use plasticity::Outcome;
use plasticity_drucker_prager::DruckerPragerPlasticity;

pub fn refused_projection(n: u8) -> Projected
    ensures { result ≡ refused_projection n }
{
    let z = [0.0, 0.0];
    Projected {
        outcome: Outcome::Refused(n),
        sigma: z,
    }
}

// The root of the sum of squares.
fn norm(e: [f64; 2]) -> Answer
    ensures { result ≡ norm_of e }
{
    square_root::sqrt_on_path(flat::dot(e, e))
}

// All ones, once the norm of the strain is known.
fn tip(e: [f64; 2]) -> Projected
    ensures { result ≡ tip_of (norm_of e) }
{
    match norm(e) {
        Answer::Value(x) => {
            let ones = [1.0, 1.0];
            Projected {
                outcome: Outcome::Stored(x),
                sigma: ones,
            }
        }
        Answer::Refused(n) => refused_projection(n),
    }
}

// Back to the cone.
fn surface(gamma: f64, b: [f64; 2]) -> Projected
    ensures { result ≡ surfaced_of gamma (walk_result (asks 15 exp b (λ new. end new))) }
{
    match exponential::exp_on_path(b[0]) {
        Answer::Value(x) => match exponential::exp_on_path(b[1]) {
            Answer::Value(y) => {
                let new = [x, y];
                Projected {
                    outcome: Outcome::Stored(gamma),
                    sigma: new,
                }
            }
            Answer::Refused(n) => refused_projection(n),
        },
        Answer::Refused(n) => refused_projection(n),
    }
}

// The test of gamma. A NaN would compare false: it is refused first.
fn yielded(
    p: DruckerPragerPlasticity,
    sigma: [f64; 2],
    e: [f64; 2],
    d: [f64; 2],
    trace: f64,
    alpha: f64,
) -> Projected
    ensures { result ≡ projected_of (walk_result (yield_walk dim p sigma e d (num trace) alpha)) }
{
    match norm(d) {
        Answer::Value(n) => {
            let g = p.gamma(2.0, n, trace, alpha);
            if numbers::is_number(g) {
                if g <= 0.0 {
                    Projected {
                        outcome: Outcome::Untouched,
                        sigma,
                    }
                } else {
                    let b = choice::back(e, d, g, n);
                    if choice::all_numbers(b) {
                        surface(g, b)
                    } else {
                        refused_projection(answers::NO_NUMBER)
                    }
                }
            } else {
                refused_projection(answers::NO_NUMBER)
            }
        }
        Answer::Refused(n) => refused_projection(n),
    }
}

// The steps after the strain.
fn strained(p: DruckerPragerPlasticity, sigma: [f64; 2], e: [f64; 2], alpha: f64) -> Projected
    ensures { result ≡ projected_of (walk_result (strained_walk dim p sigma e alpha)) }
{
    let trace = flat::sum(e);
    if numbers::is_number(trace) {
        let d = choice::deviatoric(e, trace);
        if choice::all_numbers(d) {
            if choice::all_zero(d) {
                tip(e)
            } else if trace > 0.0 {
                tip(e)
            } else {
                yielded(p, sigma, e, d, trace, alpha)
            }
        } else {
            refused_projection(answers::NO_NUMBER)
        }
    } else {
        refused_projection(answers::NO_NUMBER)
    }
}

// The projection as a step of the law.
pub fn projected(p: DruckerPragerPlasticity, sigma: [f64; 2], gain: f64, alpha: f64) -> Projected
    ensures { result ≡ projected_of (walk_result (project_walk dim p sigma gain alpha)) }
{
    match logarithm::ln_on_path(sigma[0]) {
        Answer::Value(x) => match logarithm::ln_on_path(sigma[1]) {
            Answer::Value(y) => {
                let l = [x, y];
                let e = choice::strain(l, gain);
                if choice::all_numbers(e) {
                    strained(p, sigma, e, alpha)
                } else {
                    refused_projection(answers::NO_NUMBER)
                }
            }
            Answer::Refused(n) => refused_projection(n),
        },
        Answer::Refused(n) => refused_projection(n),
    }
}
