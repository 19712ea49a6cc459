// Tallies by zone beside a list of particles (RULES, section 7): clearing, a pass of either kind, and moving one particle.
// Each particle has a zone number in a list of its own.
#![tactic(auto)]

mod array;
mod lent;
mod plan;
mod ranges;
mod slice;
mod tally;
mod words;

pub use lent::{
    clear_words, move_particle_words, pass_by_words, pass_with_failure_words, pass_words,
};
pub use slice::{clear, move_particle, pass_by};
pub use tally::{LAST, Tally, ZONES};
pub use words::{FIELDS, whole_words};
