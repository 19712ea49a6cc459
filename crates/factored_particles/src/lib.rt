// Our own factors of a record and of a lent list of records, by themselves or before a step (RULES, section 7).
#![tactic(auto)]

mod factored;
mod list;
mod own;
mod step;

pub use own::{factor_list, factor_record, pass_factored, pass_factored_with_failure};
pub use step::FactoredStep;
