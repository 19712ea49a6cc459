// One record with its model (RULES, sections 6 and 7): its law, and the verdict on what the law leaves, where there is a judge.
#![tactic(auto)]

mod alone;
mod judged;
mod record_law;
mod saved;
mod stored;

pub use alone::update_record;
pub use judged::{Judge, Stepped, finite_step, judge_finite, take_step};
pub use saved::copy;
