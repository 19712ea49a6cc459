// Moduli and the quadratic (physics.rs, whose functions of tensors stand in `decomposed`). Module `plain` has the text's
// functions as they stand, on every input; the calls of the same names here refuse by RULES, section 6.
#![tactic(auto)]

mod moduli;
mod norm;
pub mod plain;
mod quadratic;

pub use moduli::{
    bulk_modulus, bulk_modulus_from_lame, inv_exact, lame_lambda_mu, shear_modulus,
    shear_modulus_from_lame,
};
pub use norm::norm_on_path;
pub use quadratic::solve_quadratic;

// The Lamé parameters.
#[derive(Drop)]
pub struct Lame {
    pub lambda: f64,
    pub mu: f64,
}
