// The update of one particle.
ghost use Rattle.std.specs.Prelude.{◌≡◌, true, ◌&&◌};
ghost use Rattle.plasticity.specs.State.{inputs_finite};
ghost use Rattle.walk.specs.Expr.{num};
ghost use Rattle.walk.specs.Walk.{walk_result};
ghost use Rattle.walk.specs.Update.{updated_of};
ghost use Rattle.plasticity_drucker_prager.specs.Law.{parameters_finite};
ghost use Rattle.plasticity_drucker_prager.specs.DruckerPrager.{scalars_of, measured_of, stays_of, run_walk, corrected_of, drucker_update, state_of, store_walk, moved_walk};
ghost use Rattle.plasticity_drucker_prager.specs.Inner.{untouched_of, finite_results, followed_of};

use crate::{DruckerPragerPlasticity, Measured, Projected, projection, steps};
use answers::Answer;
use plasticity::{Outcome, Scalars, State, Updated};
use reason::Number;

fn untouched(s: State) -> Updated
    ensures { result ≡ untouched_of s }
{
    Updated {
        state: s,
        outcome: Outcome::Untouched,
    }
}

// Plastic determinant, plastic hardening and log gain are new.
pub fn scalars_of(d: f64, hardening: f64, gain: f64, x: Scalars) -> Scalars
    ensures { result ≡ scalars_of d hardening gain x }
{
    Scalars {
        phase: x.phase,
        plastic_determinant: d,
        plastic_hardening: hardening,
        elastic_hardening: x.elastic_hardening,
        log_gain: gain,
        alpha: x.alpha,
    }
}

// And F and sigma.
fn state_of(f: [[f64; 3]; 3], sigma: [f64; 3], d: f64, hardening: f64, gain: f64, s: State) -> State
    ensures { result ≡ state_of f sigma d hardening gain s }
{
    State {
        f: tensor::to_rows(f),
        sigma,
        scalars: scalars_of(d, hardening, gain, s.scalars),
    }
}

// Whether all results are finite.
pub fn finite_results(f: [[f64; 3]; 3], sigma: [f64; 3], d: f64, hardening: f64, gain: f64) -> bool
    ensures { result ≡ finite_results f sigma d hardening gain }
{
    tensor::mat_finite(f)
        & tensor::row_finite(sigma)
        & (numbers::is_finite(d) & numbers::is_finite(hardening) & numbers::is_finite(gain))
}

// The results are stored where all are finite; then dq, a summand of the hardening, is finite too.
fn store(
    u: [[f64; 3]; 3],
    sigma: [f64; 3],
    vt: [[f64; 3]; 3],
    d: f64,
    hardening: f64,
    gain: f64,
    dq: f64,
    s: State,
) -> Updated
    ensures { result ≡ updated_of s (walk_result (store_walk u sigma vt (num d) (num hardening) (num gain) dq s)) }
{
    let f = tensor::recompose(u, sigma, vt);
    if finite_results(f, sigma, d, hardening, gain) {
        Updated {
            state: state_of(f, sigma, d, hardening, gain, s),
            outcome: Outcome::Stored(dq),
        }
    } else {
        plasticity::refuse(answers::NO_NUMBER, s)
    }
}

impl DruckerPragerPlasticity {
    // With a growing volume the new determinant stands.
    fn corrected(self, prev: f64, grown: f64, diff: f64) -> f64
        ensures { result ≡ corrected_of self prev grown diff }
    {
        if diff > 0.0 {
            grown
        } else {
            prev + diff * self.volume_correction
        }
    }

    // What is stored beside F and sigma, by the products of the old and of the new singular values.
    pub fn measured(self, prev: f64, grown: f64, dq: f64, x: Scalars) -> Measured
        ensures { result ≡ measured_of self prev grown dq x }
    {
        let diff = grown - prev;
        if numbers::is_number(diff) {
            let new = self.corrected(prev, grown, diff);
            if numbers::is_number(new) {
                let d = x.plastic_determinant * (prev / new);
                if numbers::is_number(d) {
                    match logarithm::ln_on_path(prev) {
                        Answer::Value(a) => match logarithm::ln_on_path(new) {
                            Answer::Value(b) => {
                                let hardening = x.plastic_hardening + dq;
                                let gain = x.log_gain + (a - b);
                                Measured::Values(d, hardening, gain)
                            }
                            Answer::Refused(n) => Measured::Refused(n, steps::LOG_AFTER),
                        },
                        Answer::Refused(n) => Measured::Refused(n, steps::LOG_BEFORE),
                    }
                } else {
                    Measured::Refused(answers::NO_NUMBER, steps::DETERMINANTS)
                }
            } else {
                Measured::Refused(answers::NO_NUMBER, steps::DETERMINANTS)
            }
        } else {
            Measured::Refused(answers::NO_NUMBER, steps::DETERMINANTS)
        }
    }

    // New singular values: determinants, logarithms, hardening, recomposed F.
    fn moved(
        self,
        sigma: [f64; 3],
        dq: f64,
        u: [[f64; 3]; 3],
        vt: [[f64; 3]; 3],
        s: State,
    ) -> Updated
        ensures { result ≡ updated_of s (walk_result (moved_walk self sigma dq u vt s)) }
    {
        let old = s.sigma;
        match self.measured(tensor::product(old), tensor::product(sigma), dq, s.scalars) {
            Measured::Values(d, hardening, gain) => {
                store(u, sigma, vt, d, hardening, gain, dq, s)
            }
            Measured::Refused(n, _) => plasticity::refuse(n, s),
        }
    }

    fn branch(self, q: Projected, u: [[f64; 3]; 3], vt: [[f64; 3]; 3], s: State) -> Updated
        ensures { result ≡ followed_of q.branch self q.sigma q.dq u vt s }
    {
        let b = q.branch;
        let sigma = q.sigma;
        match projection::outcome_of(b, q.dq) {
            Outcome::Untouched => untouched(s),
            Outcome::Stored(dq) => self.moved(sigma, dq, u, vt, s),
            Outcome::Refused(n) => plasticity::refuse(n, s),
        }
    }

    // Whether the law leaves a particle of this phase alone.
    pub fn stays(self, phase: f64) -> bool
        ensures { result ≡ stays_of self phase }
    {
        self.only_active_when_failed & (phase != 0.0)
    }

    // The steps in the law's order: phase, alpha, projection, determinants, recomposed F.
    fn run(self, u: [[f64; 3]; 3], vt: [[f64; 3]; 3], s: State) -> Updated
        ensures { result ≡ updated_of s (walk_result (run_walk self u vt s)) }
    {
        if self.stays(s.scalars.phase) {
            untouched(s)
        } else {
            match self.alpha_on_path(s.scalars.plastic_hardening) {
                Number::Value(a) => {
                    let sigma = s.sigma;
                    let q = self.projected(sigma, s.scalars.log_gain, a);
                    self.branch(q, u, vt, s)
                }
                Number::Refused(n, _) => plasticity::refuse(n, s),
            }
        }
    }

    // The update of one particle: untouched, or F, sigma, plastic determinant, plastic hardening and log gain are new, or
    // the state comes back as it was with a refusal.
    pub fn update_particle(self, u: [[f64; 3]; 3], vt: [[f64; 3]; 3], s: State) -> Updated
        ensures { result ≡ drucker_update self u vt s }
    {
        if self.parameters_finite() & plasticity::inputs_finite(u, vt, s) {
            self.run(u, vt, s)
        } else {
            plasticity::refuse(answers::NOT_FINITE, s)
        }
    }

    // The same of parameters and a record that are known to be finite: they are not tested again.
    pub fn update_ready(self, u: [[f64; 3]; 3], vt: [[f64; 3]; 3], s: State) -> Updated
        requires { parameters_finite self && inputs_finite u vt s ≡ true }
        ensures { result ≡ drucker_update self u vt s }
    {
        self.run(u, vt, s)
    }
}
