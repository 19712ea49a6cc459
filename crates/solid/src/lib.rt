// Stresses, verdicts and energies of a record by the two solid laws, with its stored determinant (RULES, sections 5 and 7).
#![tactic(auto)]

pub mod corotated_linear;
pub mod judged;
pub mod neo_hookean;
mod refused;

use tensor::Rows;

// A stress and the verdict on it with refusal 0, or the refusal's number with zeros and no.
#[derive(Drop)]
pub struct StressVerdict {
    pub refusal: u8,
    pub stress: Rows,
    pub failed: bool,
}
