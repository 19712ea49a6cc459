// Non-associated Cam clay on two axes (ticket 13): the axes' number is 2 in the mean and in 6 - d, and the powers are 1/x, the root and x.
#![tactic(auto)]

mod alone;
mod arguments;
mod branches;
mod power;
mod surface;
mod update;

pub use alone::project_deformation_gradient;
pub use arguments::new;
use flat::Rows;
use plasticity::Outcome;
use plasticity_nacc::{NaccArguments, Trial};
pub use update::update_particle;

// Untouched with the singular values as they came, stored with alpha and the new ones, or refused; zeros stand beside a refusal.
#[derive(Drop)]
pub struct Stepped {
    pub outcome: Outcome,
    pub sigma: [f64; 2],
}

// The trial state with the deviatoric stress.
#[derive(Drop)]
pub struct Stressed {
    pub trial: Trial,
    pub s: [f64; 2],
}

// What `new` answers: the arguments that the calls of this crate take, or the refusal's number.
#[derive(Drop)]
pub enum Angled {
    Arguments(NaccArguments),
    Refused(u8),
}

// What the projection hands out: untouched, stored with alpha or refused, and F and the singular values after it; zeros beside a refusal.
#[derive(Drop)]
pub struct Results {
    pub outcome: Outcome,
    pub f: Rows,
    pub sigma: [f64; 2],
}
