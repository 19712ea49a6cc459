// The pass over a lent list of records, the pass with failure, and determinants filled in (RULES, section 7).
#![tactic(auto)]

mod failure;
mod fill;
mod list;
mod step;

pub use failure::{FailureCounts, PassedWithFailure, pass_with_failure};
pub use fill::fill_determinants;
pub use list::{Counts, Passed, count_one, pass, three, well_sized, write_answer};
pub use step::{Step, Taken, ready_for};
