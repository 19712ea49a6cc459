// The step that a pass takes with each record.
ghost use Rattle.std.specs.Prelude.{◌≡◌};
ghost use Rattle.model.specs.Ready.{ready_of};
ghost use Rattle.particles.specs.Step.{taken_of};

use elasticity_corotated_linear::CorotatedLinearElasticity;
use failure_maximum_stress::MaximumStressFailure;
use model::{Model, Ready};
use one_record::Judge;

// The plastic law; or that, and then the verdict, with these limits on the stress by this law.
#[derive(Drop)]
pub enum Step {
    Plain(Model),
    Judged(Model, MaximumStressFailure, CorotatedLinearElasticity),
}

// A step with its model made ready, once for all records.
#[derive(Clone, Copy)]
pub struct Taken {
    pub ready: Ready,
    pub judge: Judge,
}

fn asking(m: Model, j: Judge) -> Taken
    ensures { result ≡ record { ready = ready_of m; judge = j } }
{
    Taken {
        ready: model::make_ready(m),
        judge: j,
    }
}

// The model of a step is made ready.
pub fn ready_for(s: Step) -> Taken
    ensures { result ≡ taken_of s }
{
    match s {
        Step::Plain(m) => asking(m, Judge::Nobody),
        Step::Judged(m, l, e) => asking(m, Judge::By(l, e)),
    }
}
