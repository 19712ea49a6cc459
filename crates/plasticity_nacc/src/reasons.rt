// Why the law moved a particle, left it or refused it (ticket 8).
ghost use Rattle.std.specs.Prelude.{◌≡◌, true};
ghost use Rattle.numbers.specs.Floats.{finite};
ghost use Rattle.reason.specs.Reason.{reason_of};
ghost use Rattle.plasticity_nacc.specs.Projection.{branch_number, moduli};
ghost use Rattle.plasticity_nacc.specs.Nacc.{run_walk, arguments_walk};
ghost use Rattle.plasticity_nacc.specs.Inner.{test_of};

use crate::{Branch, NaccArguments, NaccPlasticity, Projected, steps};
use plasticity::State;
use reason::Reason;

// The branch that a test chose, by the test's number and whether it held: 0 is untouched, 1 the upper tip, 2 the lower, 3 the surface.
pub fn branch_number(test: u8, held: bool) -> u64
    ensures { result ≡ branch_number test held }
{
    if test == steps::UPPER {
        1
    } else if test == steps::LOWER {
        2
    } else if held {
        0
    } else {
        3
    }
}

// The branch's own test is the last: p0 < p, p < -beta p0, y < 1e-4.
fn branch_reason(q: Projected) -> Reason
    ensures { result ≡ test_of q.branch }
{
    let b = q.branch;
    match b {
        Branch::Upper(p, p0) => Reason::Tested(steps::UPPER, true, p0, p),
        Branch::Lower(p, low) => Reason::Tested(steps::LOWER, true, p, low),
        Branch::Inside(y, limit) => Reason::Tested(steps::YIELD, true, y, limit),
        Branch::Surface(y, limit) => Reason::Tested(steps::YIELD, false, y, limit),
        Branch::Refused(n, step) => Reason::Refused(n, step),
    }
}

impl NaccPlasticity {
    // The steps as the update runs them, once the inputs are known to be finite.
    fn run_reason(self, u: [[f64; 3]; 3], vt: [[f64; 3]; 3], s: State) -> Reason
        requires { finite s.scalars.alpha ≡ true }
        ensures { result ≡ reason_of (moduli self (run_walk self u vt s)) }
    {
        if self.moduli_finite() {
            let sigma = s.sigma;
            let f = s.f;
            branch_reason(self.project(f, u, sigma, vt, s.scalars.alpha))
        } else {
            Reason::Refused(answers::NO_NUMBER, steps::MODULI)
        }
    }
}

impl NaccArguments {
    // The last test that chose the branch, with the numbers compared; or the refusal and its step.
    pub fn reason(self, u: [[f64; 3]; 3], vt: [[f64; 3]; 3], s: State) -> Reason
        ensures { result ≡ reason_of (arguments_walk self u vt s) }
    {
        if self.parameters_finite() & plasticity::inputs_finite(u, vt, s) {
            self.law().run_reason(u, vt, s)
        } else {
            Reason::Refused(answers::NOT_FINITE, 0)
        }
    }
}
