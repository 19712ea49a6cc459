// The update of one particle.
ghost use Rattle.std.specs.Prelude.{◌≡◌, true, ◌&&◌};
ghost use Rattle.numbers.specs.Floats.{finite, min_of};
ghost use Rattle.tensor.specs.Finite.{row_finite, mat_finite};
ghost use Rattle.tensor.specs.Matrix.{add, mul};
ghost use Rattle.plasticity.specs.State.{inputs_finite};
ghost use Rattle.walk.specs.Expr.{num, value, nums};
ghost use Rattle.walk.specs.Walk.{walk_result};
ghost use Rattle.walk.specs.Update.{updated_of};
ghost use Rattle.plasticity_rankine.specs.Law.{parameters_finite, moduli_finite};
ghost use Rattle.plasticity_rankine.specs.Rankine.{moved_walk, soft_strength, run_walk, rankine_update, state_of, store_walk, exps_walk};
ghost use Rattle.plasticity_rankine.specs.Inner.{untouched_of, moves_of, followed_of};

use crate::{Branch, Moves, Projected, RankinePlasticity};
use answers::{Answer, Triple};
use plasticity::{Outcome, Scalars, State, Updated};

fn moves_of(b: Branch) -> Moves
    ensures { result ≡ moves_of b }
{
    match b {
        Branch::Untouched(_, _) => Moves::No,
        Branch::One(_, _) => Moves::Yes,
        Branch::Two(_, _) => Moves::Yes,
        Branch::All(_, _) => Moves::Yes,
        Branch::Refused(n, _) => Moves::Refused(n),
    }
}

fn untouched(s: State) -> Updated
    ensures { result ≡ untouched_of s }
{
    Updated {
        state: s,
        outcome: Outcome::Untouched,
    }
}

fn state_of(f: [[f64; 3]; 3], sigma: [f64; 3], h: f64, s: State) -> State
    ensures { result ≡ state_of f sigma h s }
{
    State {
        f: tensor::to_rows(f),
        sigma,
        scalars: Scalars {
            phase: s.scalars.phase,
            plastic_determinant: s.scalars.plastic_determinant,
            plastic_hardening: h,
            elastic_hardening: s.scalars.elastic_hardening,
            log_gain: s.scalars.log_gain,
            alpha: s.scalars.alpha,
        },
    }
}

pub(crate) fn results_finite(f: [[f64; 3]; 3], sigma: [f64; 3], h: f64) -> bool
    ensures { result ≡ mat_finite f && row_finite sigma && finite h }
{
    tensor::mat_finite(f) & tensor::row_finite(sigma) & numbers::is_finite(h)
}

// The results are stored where all are finite.
fn store(u: [[f64; 3]; 3], sigma: [f64; 3], vt: [[f64; 3]; 3], h: f64, s: State) -> Updated
    ensures { result ≡ updated_of s (walk_result (store_walk u sigma vt (num h) s)) }
{
    let f = tensor::recompose(u, sigma, vt);
    if results_finite(f, sigma, h) {
        Updated {
            state: state_of(f, sigma, h, s),
            outcome: Outcome::Stored(h),
        }
    } else {
        plasticity::refuse(answers::NO_NUMBER, s)
    }
}

// Sigma is the exponentials of the strains.
fn exps(e: [f64; 3], u: [[f64; 3]; 3], vt: [[f64; 3]; 3], h: f64, s: State) -> Updated
    ensures { result ≡ updated_of s (walk_result (exps_walk e u vt (num h) s)) }
{
    match exponential::exps_on_path(e[0], e[1], e[2]) {
        Triple::Values(x, y, z) => {
            let sigma = [x, y, z];
            store(u, sigma, vt, h, s)
        }
        Triple::Refused(n) => plasticity::refuse(n, s),
    }
}

impl RankinePlasticity {
    // The hardening h before the cap.
    pub(crate) fn grown(self, h: f64, norm: f64) -> f64
        ensures { result ≡ add h (mul self.softening_rate norm) }
    {
        h + self.softening_rate * norm
    }

    // The minimum with a strength that is a number, which is not tested again.
    pub(crate) fn capped(self, h: f64) -> f64
        requires { finite self.tensile_strength ≡ true }
        ensures { result ≡ min_of h self.tensile_strength }
    {
        if h < self.tensile_strength {
            h
        } else {
            self.tensile_strength
        }
    }

    // Strains that moved: hardening, exponentials, F. A NaN in the new strains is in the norm. The minimum would hide one in
    // the hardening: it is refused before.
    fn moved(
        self,
        old: [f64; 3],
        new: [f64; 3],
        u: [[f64; 3]; 3],
        vt: [[f64; 3]; 3],
        s: State,
    ) -> Updated
        requires { finite self.tensile_strength ≡ true }
        ensures { result ≡ updated_of s (walk_result (moved_walk self old (nums new) u vt s)) }
    {
        match physics::norm_on_path(tensor::row_sub(old, new)) {
            Answer::Value(norm) => {
                let grown = self.grown(s.scalars.plastic_hardening, norm);
                if numbers::is_number(grown) {
                    exps(new, u, vt, self.capped(grown), s)
                } else {
                    plasticity::refuse(answers::NO_NUMBER, s)
                }
            }
            Answer::Refused(n) => plasticity::refuse(n, s),
        }
    }

    // Capped only where a strain moves.
    fn followed(
        self,
        q: Projected,
        e: [f64; 3],
        u: [[f64; 3]; 3],
        vt: [[f64; 3]; 3],
        s: State,
    ) -> Updated
        requires { finite self.tensile_strength ≡ true }
        ensures { result ≡ followed_of q.branch self e q.strains u vt s }
    {
        let b = q.branch;
        let new = q.strains;
        match moves_of(b) {
            Moves::No => untouched(s),
            Moves::Yes => self.moved(e, new, u, vt, s),
            Moves::Refused(n) => plasticity::refuse(n, s),
        }
    }

    // The hardening starts from 1.
    pub fn soft_strength(self, h: f64) -> f64
        ensures { result ≡ value (soft_strength self h) }
    {
        self.tensile_strength - (h - 1.0)
    }

    // The steps in the law's order: logarithms, branch, hardening, exponentials, recomposed F. Of finite inputs the softened
    // strength is no NaN.
    fn run(self, sigma: [f64; 3], u: [[f64; 3]; 3], vt: [[f64; 3]; 3], s: State) -> Updated
        requires { parameters_finite self && inputs_finite u vt s ≡ true }
        ensures { result ≡ updated_of s (walk_result (run_walk self sigma u vt s)) }
    {
        match logarithm::logs_on_path(sigma[0], sigma[1], sigma[2]) {
            Triple::Values(x, y, z) => {
                let e = [x, y, z];
                let soft = self.soft_strength(s.scalars.plastic_hardening);
                self.followed(self.projected(e, soft), e, u, vt, s)
            }
            Triple::Refused(n) => plasticity::refuse(n, s),
        }
    }

    // The update of one particle: untouched, or F, sigma and the plastic hardening are new, or the state comes back as it
    // was with a refusal.
    pub fn update_particle(self, u: [[f64; 3]; 3], vt: [[f64; 3]; 3], s: State) -> Updated
        ensures { result ≡ rankine_update self u vt s }
    {
        if self.parameters_finite() & plasticity::inputs_finite(u, vt, s) {
            if self.moduli_finite() {
                let sigma = s.sigma;
                self.run(sigma, u, vt, s)
            } else {
                plasticity::refuse(answers::NO_NUMBER, s)
            }
        } else {
            plasticity::refuse(answers::NOT_FINITE, s)
        }
    }

    // The same of parameters, moduli and a record that are known to be finite: they are not tested again.
    pub fn update_ready(self, u: [[f64; 3]; 3], vt: [[f64; 3]; 3], s: State) -> Updated
        requires { (parameters_finite self && inputs_finite u vt s ≡ true) × (moduli_finite self ≡ true) }
        ensures { result ≡ rankine_update self u vt s }
    {
        let sigma = s.sigma;
        self.run(sigma, u, vt, s)
    }
}
