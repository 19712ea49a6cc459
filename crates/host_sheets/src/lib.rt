// A host's sheets, whole and in parts, and its reports, on its own lists: 8 for a room of another length, and nothing written then
// (RULES, sections 6 and 7).
#![tactic(auto)]

mod in_parts;
mod reports;
mod sheets;

pub use in_parts::{pasoletu_begin_parts, pasoletu_end_parts, pasoletu_part};
pub use reports::{pasoletu_join_reports, pasoletu_report};
pub use sheets::{pasoletu_read_sheet, pasoletu_run_sheet, pasoletu_write_sheet};
