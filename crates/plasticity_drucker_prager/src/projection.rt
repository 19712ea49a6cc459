// The projection: the branch taken and worked.
ghost use Rattle.std.specs.Prelude.{◌≡◌};
ghost use Rattle.tensor.specs.Matrix.{three, one};
ghost use Rattle.physics.specs.Norm.{norm_of};
ghost use Rattle.walk.specs.Expr.{num, value};
ghost use Rattle.walk.specs.Walk.{walk_result};
ghost use Rattle.reason.specs.Traced.{traced};
ghost use Rattle.plasticity_drucker_prager.specs.Alpha.{dim};
ghost use Rattle.plasticity_drucker_prager.specs.Projection.{gamma, surface_walk, yield_walk, strained_walk, project_walk, project_call, refused_projection, walked_of, projected_of, outcome_of, results_of};
ghost use Rattle.plasticity_drucker_prager.specs.Inner.{tip_of, returned_of};

use crate::{Branch, DruckerPragerPlasticity, Projected, Results, choice, steps};
use answers::{Answer, Triple};
use plasticity::Outcome;

fn refused_projection(n: u8, step: u8) -> Projected
    ensures { result ≡ refused_projection n step }
{
    let z = [0.0, 0.0, 0.0];
    Projected {
        branch: Branch::Refused(n, step),
        sigma: z,
        dq: 0.0,
    }
}

// All ones, once the norm of the strain is known.
fn tip(b: Branch, e: [f64; 3]) -> Projected
    ensures { result ≡ tip_of b (three one one one) (norm_of e) }
{
    match physics::norm_on_path(e) {
        Answer::Value(x) => {
            let ones = [1.0, 1.0, 1.0];
            Projected {
                branch: b,
                sigma: ones,
                dq: x,
            }
        }
        Answer::Refused(n) => refused_projection(n, steps::TIP),
    }
}

// Back to the cone.
fn surface(gamma: f64, norm: f64, b: [f64; 3]) -> Projected
    ensures { result ≡ walked_of (traced (surface_walk (num gamma) (num norm) b)) }
{
    match exponential::exps_on_path(b[0], b[1], b[2]) {
        Triple::Values(x, y, z) => {
            let new = [x, y, z];
            Projected {
                branch: Branch::Surface(gamma, 0.0, norm),
                sigma: new,
                dq: gamma,
            }
        }
        Triple::Refused(n) => refused_projection(n, steps::EXPS),
    }
}

// The results are returned where all are finite.
fn returned_projection(q: Projected) -> Projected
    ensures { result ≡ returned_of q }
{
    let sigma = q.sigma;
    if tensor::row_finite(sigma) & numbers::is_finite(q.dq) {
        q
    } else {
        refused_projection(answers::NO_NUMBER, steps::RESULTS)
    }
}

// Whether the values are new; dq is the amount.
pub(crate) fn outcome_of(b: Branch, dq: f64) -> Outcome
    ensures { result ≡ outcome_of b dq }
{
    match b {
        Branch::Isotropic(_, _, _) => Outcome::Stored(dq),
        Branch::Expanding(_, _) => Outcome::Stored(dq),
        Branch::Inside(_, _) => Outcome::Untouched,
        Branch::Surface(_, _, _) => Outcome::Stored(dq),
        Branch::Refused(n, _) => Outcome::Refused(n),
    }
}

fn handed_out(q: Projected) -> Results
    ensures { result ≡ results_of q }
{
    let b = q.branch;
    let sigma = q.sigma;
    let outcome = outcome_of(b, q.dq);
    Results { outcome, sigma }
}

impl DruckerPragerPlasticity {
    // d is the number of axes.
    pub fn gamma(self, d: f64, norm: f64, trace: f64, alpha: f64) -> f64
        ensures { result ≡ value (gamma (num d) self (num norm) (num trace) alpha) }
    {
        norm + (d * self.lambda + 2.0 * self.mu) / (2.0 * self.mu) * trace * alpha
    }

    // The test of gamma. A NaN would compare false: it is refused first.
    fn yielded(self, sigma: [f64; 3], e: [f64; 3], d: [f64; 3], trace: f64, alpha: f64) -> Projected
        ensures { result ≡ walked_of (traced (yield_walk dim self sigma e d (num trace) alpha)) }
    {
        match physics::norm_on_path(d) {
            Answer::Value(norm) => {
                let g = self.gamma(3.0, norm, trace, alpha);
                if numbers::is_number(g) {
                    if g <= 0.0 {
                        Projected {
                            branch: Branch::Inside(g, 0.0),
                            sigma,
                            dq: 0.0,
                        }
                    } else {
                        let b = choice::back(e, d, g, norm);
                        if choice::all_numbers(b) {
                            surface(g, norm, b)
                        } else {
                            refused_projection(answers::NO_NUMBER, steps::BACK)
                        }
                    }
                } else {
                    refused_projection(answers::NO_NUMBER, steps::GAMMA)
                }
            }
            Answer::Refused(n) => refused_projection(n, steps::NORM),
        }
    }

    // The steps after the strain.
    fn strained(self, sigma: [f64; 3], e: [f64; 3], alpha: f64) -> Projected
        ensures { result ≡ walked_of (traced (strained_walk dim self sigma e alpha)) }
    {
        let trace = tensor::sum(e);
        if numbers::is_number(trace) {
            let d = choice::deviatoric(e, trace);
            if choice::all_numbers(d) {
                if choice::all_zero(d) {
                    tip(Branch::Isotropic(d[0], d[1], d[2]), e)
                } else if trace > 0.0 {
                    tip(Branch::Expanding(trace, 0.0), e)
                } else {
                    self.yielded(sigma, e, d, trace, alpha)
                }
            } else {
                refused_projection(answers::NO_NUMBER, steps::STRAIN)
            }
        } else {
            refused_projection(answers::NO_NUMBER, steps::STRAIN)
        }
    }

    // The projection as a step of the law.
    pub(crate) fn projected(self, sigma: [f64; 3], gain: f64, alpha: f64) -> Projected
        ensures { result ≡ walked_of (traced (project_walk dim self sigma gain alpha)) }
    {
        match logarithm::logs_on_path(sigma[0], sigma[1], sigma[2]) {
            Triple::Values(x, y, z) => {
                let l = [x, y, z];
                let e = choice::strain(l, gain);
                if choice::all_numbers(e) {
                    self.strained(sigma, e, alpha)
                } else {
                    refused_projection(answers::NO_NUMBER, steps::STRAIN)
                }
            }
            Triple::Refused(n) => refused_projection(n, steps::LOGS),
        }
    }

    // The projection by itself, with its branch.
    fn projected_by_itself(
        self,
        singular_values: [f64; 3],
        log_vol_gain: f64,
        alpha: f64,
    ) -> Projected
        ensures { result ≡ walked_of (traced (project_call dim self singular_values log_vol_gain alpha)) }
    {
        if self.parameters_finite()
            & tensor::row_finite(singular_values)
            & numbers::is_finite(log_vol_gain)
            & numbers::is_finite(alpha)
        {
            returned_projection(self.projected(singular_values, log_vol_gain, alpha))
        } else {
            refused_projection(answers::NOT_FINITE, 0)
        }
    }

    // The projection of singular values.
    pub fn project_deformation_gradient(
        self,
        singular_values: [f64; 3],
        log_vol_gain: f64,
        alpha: f64,
    ) -> Results
        ensures { result ≡ results_of (projected_of (walk_result (project_call dim self singular_values log_vol_gain alpha))) }
    {
        handed_out(self.projected_by_itself(singular_values, log_vol_gain, alpha))
    }
}
