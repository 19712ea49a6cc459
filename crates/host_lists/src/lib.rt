// A host's lent lists: what the C calls read of them, the refusals of the lists themselves, and the answers written into a room
// (RULES, sections 6 and 7).
#![tactic(auto)]

mod laws;
mod read;
mod refused;
mod write;

pub use laws::{corotated, limits, neo_hookean};
pub use read::{decomposed, matrix, row};
pub use refused::{flagged, flagged_judged, sized, sized_judged, sized_matrix, sized_vector};
pub use write::{put, put_judged, put_matrix, put_pair, put_vector};
