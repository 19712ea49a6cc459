// Why the law moved a particle, left it or refused it (ticket 8).
ghost use Rattle.std.specs.Prelude.{◌≡◌};
ghost use Rattle.reason.specs.Reason.{reason_of};
ghost use Rattle.reason.specs.Why.{why};
ghost use Rattle.plasticity_drucker_prager.specs.Projection.{branch_number};
ghost use Rattle.plasticity_drucker_prager.specs.DruckerPrager.{run_walk, drucker_walk, moved_walk};
ghost use Rattle.plasticity_drucker_prager.specs.Inner.{branch_told, follow_walk};

use crate::{Branch, DruckerPragerPlasticity, Measured, Projected, steps, update};
use plasticity::State;
use reason::{Number, Reason};

// The branch that a test chose, by the test's number and whether it held: 0 is untouched, 1 the ones, 2 the cone.
pub fn branch_number(test: u8, held: bool) -> u64
    ensures { result ≡ branch_number test held }
{
    if test == steps::FLAG {
        0
    } else if test == steps::YIELD {
        if held { 0 } else { 2 }
    } else {
        1
    }
}

impl DruckerPragerPlasticity {
    // Of new singular values: the reason of their branch, unless a step after it refuses.
    fn moved_reason(
        self,
        told: Reason,
        sigma: [f64; 3],
        dq: f64,
        u: [[f64; 3]; 3],
        vt: [[f64; 3]; 3],
        s: State,
    ) -> Reason
        ensures { result ≡ why told (moved_walk self sigma dq u vt s) }
    {
        let old = s.sigma;
        match self.measured(tensor::product(old), tensor::product(sigma), dq, s.scalars) {
            Measured::Values(d, hardening, gain) => {
                let f = tensor::recompose(u, sigma, vt);
                if update::finite_results(f, sigma, d, hardening, gain) {
                    told
                } else {
                    Reason::Refused(answers::NO_NUMBER, steps::RESULTS)
                }
            }
            Measured::Refused(n, step) => Reason::Refused(n, step),
        }
    }

    // The branch's own test is the last.
    fn branch_reason(self, q: Projected, u: [[f64; 3]; 3], vt: [[f64; 3]; 3], s: State) -> Reason
        ensures { result ≡ branch_told q.branch self q.sigma q.dq u vt s }
    {
        let b = q.branch;
        let sigma = q.sigma;
        match b {
            Branch::Isotropic(x, y, z) => {
                self.moved_reason(
                    Reason::Zeros(steps::ZEROS, true, x, y, z),
                    sigma,
                    q.dq,
                    u,
                    vt,
                    s,
                )
            }
            Branch::Expanding(trace, zero) => {
                self.moved_reason(
                    Reason::Tested(steps::TRACE, true, zero, trace),
                    sigma,
                    q.dq,
                    u,
                    vt,
                    s,
                )
            }
            Branch::Inside(gamma, zero) => Reason::Tested(steps::YIELD, true, gamma, zero),
            Branch::Surface(gamma, zero, _) => {
                self.moved_reason(
                    Reason::Tested(steps::YIELD, false, gamma, zero),
                    sigma,
                    q.dq,
                    u,
                    vt,
                    s,
                )
            }
            Branch::Refused(n, step) => Reason::Refused(n, step),
        }
    }

    // Once alpha is known.
    fn project_reason(
        self,
        sigma: [f64; 3],
        alpha: f64,
        u: [[f64; 3]; 3],
        vt: [[f64; 3]; 3],
        s: State,
    ) -> Reason
        ensures { result ≡ reason_of (follow_walk self sigma alpha u vt s) }
    {
        let q = self.projected(sigma, s.scalars.log_gain, alpha);
        self.branch_reason(q, u, vt, s)
    }

    // The steps as the update runs them.
    fn run_reason(self, u: [[f64; 3]; 3], vt: [[f64; 3]; 3], s: State) -> Reason
        ensures { result ≡ reason_of (run_walk self u vt s) }
    {
        if self.stays(s.scalars.phase) {
            Reason::Flagged(steps::FLAG, true)
        } else {
            match self.alpha_on_path(s.scalars.plastic_hardening) {
                Number::Value(a) => {
                    let sigma = s.sigma;
                    self.project_reason(sigma, a, u, vt, s)
                }
                Number::Refused(n, step) => Reason::Refused(n, step),
            }
        }
    }

    // The last test that chose the branch, with the numbers compared; or the refusal and its step.
    pub fn reason(self, u: [[f64; 3]; 3], vt: [[f64; 3]; 3], s: State) -> Reason
        ensures { result ≡ reason_of (drucker_walk self u vt s) }
    {
        if self.parameters_finite() & plasticity::inputs_finite(u, vt, s) {
            self.run_reason(u, vt, s)
        } else {
            Reason::Refused(answers::NOT_FINITE, 0)
        }
    }
}
