// Why an update answered as it did (ticket 8): the law's own pieces, run to the first refusal. Tests and steps have the numbers of docs/STEPS.md.
ghost use Rattle.std.specs.Prelude.{◌≡◌, true, ◌&&◌};
ghost use Rattle.numbers.specs.Floats.{finite};
ghost use Rattle.plasticity.specs.State.{inputs_finite};
ghost use Rattle.walk.specs.Expr.{num, nums};
ghost use Rattle.reason.specs.Reason.{untold, reason_of};
ghost use Rattle.reason.specs.Why.{why};
ghost use Rattle.plasticity_rankine.specs.Law.{parameters_finite};
ghost use Rattle.plasticity_rankine.specs.Projection.{branch_number};
ghost use Rattle.plasticity_rankine.specs.Rankine.{moved_walk, run_walk, rankine_walk, arguments_walk, exps_walk};
ghost use Rattle.plasticity_rankine.specs.Inner.{followed_reason};

use crate::{Branch, Projected, RankineArguments, RankinePlasticity, steps, update};
use answers::{Answer, Triple};
use plasticity::State;
use reason::Reason;

// The branch that a test chose, by the test's number and whether it held: how many strains move.
pub fn branch_number(test: u8, held: bool) -> u64
    ensures { result ≡ branch_number test held }
{
    if test == steps::FIRST_TEST {
        0
    } else if test == steps::SECOND_TEST {
        1
    } else if held {
        2
    } else {
        3
    }
}

// The exponentials and the results; `told` is the last test's.
fn exps_reason(
    e: [f64; 3],
    u: [[f64; 3]; 3],
    vt: [[f64; 3]; 3],
    h: f64,
    s: State,
    told: Reason,
) -> Reason
    ensures { result ≡ why told (exps_walk e u vt (num h) s) }
{
    match exponential::exps_on_path(e[0], e[1], e[2]) {
        Triple::Values(x, y, z) => {
            let sigma = [x, y, z];
            if update::results_finite(tensor::recompose(u, sigma, vt), sigma, h) {
                told
            } else {
                Reason::Refused(answers::NO_NUMBER, steps::RESULTS)
            }
        }
        Triple::Refused(n) => Reason::Refused(n, steps::EXPONENTIALS),
    }
}

impl RankinePlasticity {
    // Strains that moved.
    fn moved_reason(
        self,
        old: [f64; 3],
        new: [f64; 3],
        u: [[f64; 3]; 3],
        vt: [[f64; 3]; 3],
        s: State,
        told: Reason,
    ) -> Reason
        requires { finite self.tensile_strength ≡ true }
        ensures { result ≡ why told (moved_walk self old (nums new) u vt s) }
    {
        match physics::norm_on_path(tensor::row_sub(old, new)) {
            Answer::Value(norm) => {
                let grown = self.grown(s.scalars.plastic_hardening, norm);
                if numbers::is_number(grown) {
                    exps_reason(new, u, vt, self.capped(grown), s, told)
                } else {
                    Reason::Refused(answers::NO_NUMBER, steps::HARDENING)
                }
            }
            Answer::Refused(n) => Reason::Refused(n, steps::NORM),
        }
    }

    fn followed_reason(
        self,
        q: Projected,
        e: [f64; 3],
        u: [[f64; 3]; 3],
        vt: [[f64; 3]; 3],
        s: State,
    ) -> Reason
        requires { finite self.tensile_strength ≡ true }
        ensures { result ≡ followed_reason q.branch self e q.strains u vt s }
    {
        let b = q.branch;
        let new = q.strains;
        match b {
            Branch::Untouched(x, y) => Reason::Tested(steps::FIRST_TEST, true, x, y),
            Branch::One(x, y) => {
                self.moved_reason(
                    e,
                    new,
                    u,
                    vt,
                    s,
                    Reason::Tested(steps::SECOND_TEST, true, x, y),
                )
            }
            Branch::Two(x, y) => {
                self.moved_reason(
                    e,
                    new,
                    u,
                    vt,
                    s,
                    Reason::Tested(steps::THIRD_TEST, true, x, y),
                )
            }
            Branch::All(x, y) => {
                self.moved_reason(
                    e,
                    new,
                    u,
                    vt,
                    s,
                    Reason::Tested(steps::THIRD_TEST, false, x, y),
                )
            }
            Branch::Refused(n, step) => Reason::Refused(n, step),
        }
    }

    // The steps in the law's order. Of finite inputs the softened strength, step 3, is no NaN.
    fn run_reason(self, sigma: [f64; 3], u: [[f64; 3]; 3], vt: [[f64; 3]; 3], s: State) -> Reason
        requires { parameters_finite self && inputs_finite u vt s ≡ true }
        ensures { result ≡ why untold (run_walk self sigma u vt s) }
    {
        match logarithm::logs_on_path(sigma[0], sigma[1], sigma[2]) {
            Triple::Values(x, y, z) => {
                let e = [x, y, z];
                let soft = self.soft_strength(s.scalars.plastic_hardening);
                self.followed_reason(self.projected(e, soft), e, u, vt, s)
            }
            Triple::Refused(n) => Reason::Refused(n, steps::LOGARITHMS),
        }
    }

    // Why `update_particle` answers as it does.
    pub fn reason(self, u: [[f64; 3]; 3], vt: [[f64; 3]; 3], s: State) -> Reason
        ensures { result ≡ reason_of (rankine_walk self u vt s) }
    {
        if self.parameters_finite() & plasticity::inputs_finite(u, vt, s) {
            if self.moduli_finite() {
                let sigma = s.sigma;
                self.run_reason(sigma, u, vt, s)
            } else {
                Reason::Refused(answers::NO_NUMBER, steps::MODULI)
            }
        } else {
            Reason::Refused(answers::NOT_FINITE, steps::INPUTS)
        }
    }
}

impl RankineArguments {
    // The same of the law that `new` makes of these arguments.
    pub fn reason(self, u: [[f64; 3]; 3], vt: [[f64; 3]; 3], s: State) -> Reason
        ensures { result ≡ reason_of (arguments_walk self u vt s) }
    {
        if self.elastic_finite() {
            self.law().reason(u, vt, s)
        } else {
            Reason::Refused(answers::NOT_FINITE, steps::INPUTS)
        }
    }
}
