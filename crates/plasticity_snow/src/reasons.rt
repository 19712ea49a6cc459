// Why an update answered as it did (ticket 8): of each singular value the bound whose step last changed it. Steps have the numbers of docs/STEPS.md.
ghost use Rattle.std.specs.Prelude.{◌≡◌, true, ◌&&◌};
ghost use Rattle.plasticity.specs.State.{inputs_finite};
ghost use Rattle.reason.specs.Reason.{reason_from};
ghost use Rattle.reason.specs.Why.{why};
ghost use Rattle.plasticity_snow.specs.Snow.{parameters_finite, run_walk, snow_walk};
ghost use Rattle.plasticity_snow.specs.Reason.{bound_of, bounds_of, branch_number};

use crate::SnowPlasticity;
use answers::Answer;
use plasticity::State;
use reason::{Bound, Reason};

const INPUTS: u8 = 0;

const EXPONENTIAL: u8 = 3;

const RESULTS: u8 = 4;

// The branch's number: no test is made, and there is one.
pub fn branch_number() -> u64
    ensures { result ≡ branch_number }
{
    1
}

impl SnowPlasticity {
    // Changed is in bits: -0.0 to 0.0 too.
    fn bound(self, e: f64) -> Bound
        ensures { result ≡ bound_of self e }
    {
        let raised = numbers::bits_of(numbers::max(e, 1.0 - self.min_epsilon));
        if numbers::bits_of(self.clamp(e)) == raised {
            if raised == numbers::bits_of(e) {
                Bound::Neither
            } else {
                Bound::Lower
            }
        } else {
            Bound::Upper
        }
    }

    fn bounds(self, sigma: [f64; 3]) -> Reason
        ensures { result ≡ bounds_of self sigma }
    {
        Reason::Clamped(
            self.bound(sigma[0]),
            self.bound(sigma[1]),
            self.bound(sigma[2]),
        )
    }

    // The steps in the law's order, to the first that refuses.
    fn run_reason(self, u: [[f64; 3]; 3], vt: [[f64; 3]; 3], s: State, told: Reason) -> Reason
        requires { parameters_finite self && inputs_finite u vt s ≡ true }
        ensures { result ≡ why told (run_walk self u vt s) }
    {
        let sigma = s.sigma;
        let new = self.project_deformation_gradient(sigma);
        let d = crate::determinant(s.scalars.plastic_determinant, sigma, new);
        match exponential::exp_on_path(self.exponent(d)) {
            Answer::Value(h) => {
                if crate::results_finite(tensor::recompose(u, new, vt), new, d, h) {
                    told
                } else {
                    Reason::Refused(answers::NO_NUMBER, RESULTS)
                }
            }
            Answer::Refused(n) => Reason::Refused(n, EXPONENTIAL),
        }
    }

    // Why `update_particle` answers as it does.
    pub fn reason(self, u: [[f64; 3]; 3], vt: [[f64; 3]; 3], s: State) -> Reason
        ensures { result ≡ reason_from (bounds_of self s.sigma) (snow_walk self u vt s) }
    {
        if self.parameters_finite() & plasticity::inputs_finite(u, vt, s) {
            let sigma = s.sigma;
            self.run_reason(u, vt, s, self.bounds(sigma))
        } else {
            Reason::Refused(answers::NOT_FINITE, INPUTS)
        }
    }
}
