// The projection as a call by itself, and the update of one particle.
ghost use Rattle.std.specs.Prelude.{◌≡◌, true, ◌&&◌};
ghost use Rattle.numbers.specs.Floats.{finite};
ghost use Rattle.plasticity.specs.State.{inputs_finite};
ghost use Rattle.walk.specs.Walk.{walk_result};
ghost use Rattle.walk.specs.Update.{updated_of};
ghost use Rattle.reason.specs.Traced.{traced};
ghost use Rattle.plasticity_nacc.specs.Law.{parameters_finite, moduli_finite};
ghost use Rattle.plasticity_nacc.specs.Projection.{outcome_of, results_of, beside_zeros, refused_projection, walked_of, projected_of, project_walk, project_call};
ghost use Rattle.plasticity_nacc.specs.Inner.{recomposed_of, by_branch, project_inputs, state_of, stored_by};
ghost use Rattle.plasticity_nacc.specs.Over.{scalars_of};
ghost use Rattle.plasticity_nacc.specs.Nacc.{run_walk, nacc_update};

use crate::{Branch, NaccPlasticity, Projected, Results, Stepped, steps};
use plasticity::{Outcome, Scalars, State, Updated};
use tensor::Rows;

// Zeros beside the branch.
fn beside_zeros(b: Branch) -> Projected
    ensures { result ≡ beside_zeros b }
{
    let z = [0.0, 0.0, 0.0];
    let zeros = Rows {
        r0: z,
        r1: z,
        r2: z,
    };
    Projected {
        branch: b,
        f: zeros,
        sigma: z,
        alpha: 0.0,
    }
}

fn refused_projection(n: u8, step: u8) -> Projected
    ensures { result ≡ refused_projection n step }
{
    beside_zeros(Branch::Refused(n, step))
}

// The results are given where all are finite.
fn recomposed(
    b: Branch,
    u: [[f64; 3]; 3],
    sigma: [f64; 3],
    vt: [[f64; 3]; 3],
    alpha: f64,
) -> Projected
    ensures { result ≡ recomposed_of b u sigma vt alpha }
{
    let m = tensor::recompose(u, sigma, vt);
    if tensor::mat_finite(m) & tensor::row_finite(sigma) & numbers::is_finite(alpha) {
        let f = tensor::to_rows(m);
        Projected {
            branch: b,
            f,
            sigma,
            alpha,
        }
    } else {
        refused_projection(answers::NO_NUMBER, steps::RESULTS)
    }
}

// Whether the values are new; alpha is the amount.
fn outcome_of(b: Branch, alpha: f64) -> Outcome
    ensures { result ≡ outcome_of b alpha }
{
    match b {
        Branch::Upper(_, _) => Outcome::Stored(alpha),
        Branch::Lower(_, _) => Outcome::Stored(alpha),
        Branch::Inside(_, _) => Outcome::Untouched,
        Branch::Surface(_, _) => Outcome::Stored(alpha),
        Branch::Refused(n, _) => Outcome::Refused(n),
    }
}

// F is recomposed, but inside the yield surface as it came.
fn projected(q: Stepped, f: Rows, u: [[f64; 3]; 3], vt: [[f64; 3]; 3]) -> Projected
    ensures { result ≡ by_branch q.branch q.sigma q.alpha f u vt }
{
    let b = q.branch;
    let sigma = q.sigma;
    match outcome_of(b, q.alpha) {
        Outcome::Untouched => Projected {
            branch: b,
            f,
            sigma,
            alpha: q.alpha,
        },
        Outcome::Stored(alpha) => recomposed(b, u, sigma, vt, alpha),
        Outcome::Refused(_) => beside_zeros(b),
    }
}

// Alpha is new.
pub fn scalars_of(alpha: f64, x: Scalars) -> Scalars
    ensures { result ≡ scalars_of alpha x }
{
    Scalars {
        phase: x.phase,
        plastic_determinant: x.plastic_determinant,
        plastic_hardening: x.plastic_hardening,
        elastic_hardening: x.elastic_hardening,
        log_gain: x.log_gain,
        alpha,
    }
}

fn state_of(f: Rows, sigma: [f64; 3], alpha: f64, s: State) -> State
    ensures { result ≡ state_of f sigma alpha s }
{
    State {
        f,
        sigma,
        scalars: scalars_of(alpha, s.scalars),
    }
}

// F, sigma and alpha are stored; inside the yield surface the state is as it came, alpha too.
fn stored(q: Projected, s: State) -> Updated
    ensures { result ≡ stored_by q.branch q.f q.sigma q.alpha s }
{
    let b = q.branch;
    let f = q.f;
    let sigma = q.sigma;
    match outcome_of(b, q.alpha) {
        Outcome::Untouched => Updated {
            state: s,
            outcome: Outcome::Untouched,
        },
        Outcome::Stored(alpha) => Updated {
            state: state_of(f, sigma, alpha, s),
            outcome: Outcome::Stored(alpha),
        },
        Outcome::Refused(n) => plasticity::refuse(n, s),
    }
}

fn handed_out(q: Projected) -> Results
    ensures { result ≡ results_of q }
{
    let b = q.branch;
    let f = q.f;
    let sigma = q.sigma;
    let outcome = outcome_of(b, q.alpha);
    Results { outcome, f, sigma }
}

impl NaccPlasticity {
    fn projection_inputs(
        self,
        f: [[f64; 3]; 3],
        u: [[f64; 3]; 3],
        sigma: [f64; 3],
        vt: [[f64; 3]; 3],
        alpha: f64,
    ) -> bool
        ensures { result ≡ project_inputs self f u sigma vt alpha }
    {
        self.parameters_finite()
            & tensor::mat_finite(f)
            & tensor::mat_finite(u)
            & tensor::row_finite(sigma)
            & tensor::mat_finite(vt)
            & numbers::is_finite(alpha)
    }

    // The steps, and F recomposed after them: one place for the update, the call by itself and the reason. Where each called both, what
    // passes between them went through memory, and a record waited for it.
    pub(crate) fn project(
        self,
        f: Rows,
        u: [[f64; 3]; 3],
        sigma: [f64; 3],
        vt: [[f64; 3]; 3],
        alpha: f64,
    ) -> Projected
        requires { finite alpha ≡ true }
        ensures { result ≡ walked_of (traced (project_walk self f u sigma vt alpha)) }
    {
        projected(self.steps(sigma, alpha), f, u, vt)
    }

    // The projection by itself, with its branch.
    fn projected_by_itself(
        self,
        f: [[f64; 3]; 3],
        u: [[f64; 3]; 3],
        sigma: [f64; 3],
        vt: [[f64; 3]; 3],
        alpha: f64,
    ) -> Projected
        ensures { result ≡ walked_of (traced (project_call self f u sigma vt alpha)) }
    {
        if self.projection_inputs(f, u, sigma, vt, alpha) {
            if self.moduli_finite() {
                self.project(tensor::to_rows(f), u, sigma, vt, alpha)
            } else {
                refused_projection(answers::NO_NUMBER, steps::MODULI)
            }
        } else {
            refused_projection(answers::NOT_FINITE, 0)
        }
    }

    // The projection of F, given with its U, sigma and V^T.
    pub fn project_deformation_gradient(
        self,
        f: [[f64; 3]; 3],
        u: [[f64; 3]; 3],
        sigma: [f64; 3],
        vt: [[f64; 3]; 3],
        alpha: f64,
    ) -> Results
        ensures { result ≡ results_of (projected_of (walk_result (project_call self f u sigma vt alpha))) }
    {
        handed_out(self.projected_by_itself(f, u, sigma, vt, alpha))
    }

    fn run(self, u: [[f64; 3]; 3], vt: [[f64; 3]; 3], s: State) -> Updated
        requires { finite s.scalars.alpha ≡ true }
        ensures { result ≡ updated_of s (walk_result (run_walk self u vt s)) }
    {
        let sigma = s.sigma;
        let f = s.f;
        stored(self.project(f, u, sigma, vt, s.scalars.alpha), s)
    }

    // The update of one particle: untouched, or F, sigma and alpha are new, or the state comes back as it was with a
    // refusal.
    pub fn update_particle(self, u: [[f64; 3]; 3], vt: [[f64; 3]; 3], s: State) -> Updated
        ensures { result ≡ nacc_update self u vt s }
    {
        if self.parameters_finite() & plasticity::inputs_finite(u, vt, s) {
            if self.moduli_finite() {
                self.run(u, vt, s)
            } else {
                plasticity::refuse(answers::NO_NUMBER, s)
            }
        } else {
            plasticity::refuse(answers::NOT_FINITE, s)
        }
    }

    // The same of parameters, moduli and a record that are known to be finite: they are not tested again.
    pub fn update_ready(self, u: [[f64; 3]; 3], vt: [[f64; 3]; 3], s: State) -> Updated
        requires { (parameters_finite self && inputs_finite u vt s ≡ true) × (moduli_finite self ≡ true) }
        ensures { result ≡ nacc_update self u vt s }
    {
        self.run(u, vt, s)
    }
}
