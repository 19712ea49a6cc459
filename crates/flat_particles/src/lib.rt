// Flat records (ticket 13): one record by its model's law in two axes, and the pass over a lent list of them.
#![tactic(auto)]

mod answer;
mod flat_record;
mod list;
mod rows;
mod step;
mod stored;

pub use flat_record::FLOATS;
pub use list::{pass, well_sized};
pub use step::update_record;
