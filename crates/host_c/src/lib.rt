// The calls of the hosts' libraries `host`, `host_passes` and `host_sheets` as C's: the static library that C, Rust and Python hosts link. Each calls the
// library's function of its name and states its clauses again.
#![tactic(auto)]

mod causes;
mod determinants;
mod elasticity;
mod factored;
mod failure;
mod friction;
mod functions;
mod in_parts;
mod judged;
mod monaghan;
mod of_record;
mod physics_calls;
mod plain;
mod reports;
mod returns;
mod sheets;
mod updates;
mod zones;
