// A host's updates, passes and reasons, on its own lists: 8 for a length, 6 for a number or a flag that isn't known, and nothing written then; else
// what the law makes of them (RULES, sections 6 and 7).
#![tactic(auto)]

mod causes;
mod counts;
mod determinants;
mod factored;
mod failure;
mod friction;
mod plain;
mod updates;
mod zones;

pub use causes::pasoletu_why;
pub use determinants::pasoletu_fill_determinants;
pub use factored::{pasoletu_factor, pasoletu_factor_list};
pub use failure::{pasoletu_pass_factored_with_failure, pasoletu_pass_with_failure};
pub use friction::pasoletu_nacc_friction;
pub use plain::{pasoletu_flat_pass, pasoletu_pass, pasoletu_pass_factored};
pub use updates::{pasoletu_flat_update, pasoletu_update};
pub use zones::{
    pasoletu_clear_tallies, pasoletu_move_particle, pasoletu_pass_by_zone,
    pasoletu_pass_with_failure_by_zone,
};
