// Rankine in two axes: log strains are returned to the tensile surface (ticket 13). Law, arguments and tests are those of three axes; what
// both strains become is ours.
#![tactic(auto)]

mod alone;
mod projection;
mod sorting;
mod update;

pub use alone::project;
pub use update::update_particle;

// Strains sorted upwards, and whether they stood so.
#[derive(Drop)]
struct Sorted {
    up: bool,
    low: f64,
    high: f64,
}

// Whether a strain moved; or the refusal's number.
#[derive(Drop)]
enum Branch {
    Untouched,
    Moved,
    Refused(u8),
}

// The branch taken and the strains after it, in index order; zeros beside a refusal.
#[derive(Drop)]
struct Projected {
    branch: Branch,
    strains: [f64; 2],
}
