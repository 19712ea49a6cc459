// The step that a pass with our own factors takes with each record.
ghost use Rattle.std.specs.Prelude.{◌≡◌, true, false, length};
ghost use Rattle.record.specs.Layout.{floats};
ghost use Rattle.model.specs.Ready.{ready_finite};
ghost use Rattle.factored_particles.specs.Step.{own_law, own_taken};

use crate::factored;
use model::Ready;
use one_record::{Judge, Stepped};
use particles::Step;
use plasticity::Outcome;

// Our own factors by themselves, or before a step.
#[derive(Drop)]
pub enum FactoredStep {
    Factors,
    First(Step),
}

// With its model made ready, once for all records. Factors by themselves ask no model: a refused one stands there.
#[derive(Drop)]
pub struct FactoredTaken {
    pub alone: bool,
    pub ready: Ready,
    pub judge: Judge,
}

pub fn ready_for(s: FactoredStep) -> FactoredTaken
    ensures { result ≡ own_taken s }
{
    match s {
        FactoredStep::Factors => FactoredTaken {
            alone: true,
            ready: Ready::Refused(0),
            judge: Judge::Nobody,
        },
        FactoredStep::First(f) => {
            let t = particles::ready_for(f);
            let q = t.ready;
            let j = t.judge;
            FactoredTaken {
                alone: false,
                ready: q,
                judge: j,
            }
        }
    }
}

// A step without a verdict.
fn unjudged(o: Outcome) -> Stepped
    ensures outcome { result.outcome ≡ o }
    ensures failed { result.failed ≡ false }
{
    Stepped {
        outcome: o,
        failed: false,
    }
}

// One record, by what was made ready.
pub fn take_step(alone: bool, q: Ready, j: Judge, r: &mut [u64]) -> Stepped
    requires { (length r.old ≡ floats) × (ready_finite q ≡ true) }
    ensures outcome { result.outcome ≡ (own_law alone q j r.old).outcome }
    ensures failed { result.failed ≡ (own_law alone q j r.old).failed }
    ensures record { r.new ≡ (own_law alone q j r.old).after }
{
    if alone {
        unjudged(factored::alone(r))
    } else {
        factored::first(q, j, r)
    }
}
