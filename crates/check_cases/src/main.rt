// The check of factors and of principal values at its edges, which the file `list` has with what the check's words say of them
// (tools/check_cases.py makes it in exact fractions); then ticket 6's 10,000 F, drawn here: what is handed back for them, held to the
// check, and the stresses that both solid laws give for them.
#![tactic(auto)]

mod draws;
mod edges;
mod held;
mod stresses;

use std::fmt::Display;

// A piece of a line, printed by itself. One that fails is passed over: what is printed is compared, and what is missing seen.
fn say<D: Display + Drop>(rt: &HostRuntime, piece: D) {
    let _ = rt.print(piece);
}

fn main(rt: HostRuntime) {
    edges::run(&rt);
    draws::run(&rt);
    stresses::run(&rt);
}
