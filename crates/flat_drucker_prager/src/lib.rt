// Drucker-Prager on two axes (ticket 13): the axes' number is 2 in the strain, the deviatoric part and gamma; the slope is that of three axes.
#![tactic(auto)]

mod alone;
mod choice;
mod projection;
mod update;

pub use alone::project_deformation_gradient;
use plasticity::Outcome;
pub use update::update_particle;

// Untouched with the singular values as they came, stored with dq and the new ones, or refused; zeros stand beside a refusal.
#[derive(Drop)]
pub struct Projected {
    pub outcome: Outcome,
    pub sigma: [f64; 2],
}
