// The calls that answer numbers, for C, Rust and Python hosts: each answers 0 or RULES' refusal number, and writes nothing where it refuses.
// `host_passes` and `host_sheets` have the others.
#![tactic(auto)]

pub mod elasticity;
pub mod judged;
pub mod monaghan;
pub mod of_record;
pub mod physics_calls;
pub mod returns;

ghost use Rattle.std.specs.Prelude.{◌≡◌, [], ◌∷◌};
ghost use Rattle.answers.specs.Range.{bare};
ghost use Rattle.exponential.specs.Exp.{exp_ranged};
ghost use Rattle.exponential.specs.Sinh.{sinh_ranged};
ghost use Rattle.logarithm.specs.Ln.{ln_ranged};
ghost use Rattle.sine.specs.Sine.{sin_ranged};
ghost use Rattle.square_root.specs.Sqrt.{sqrt_ranged};
ghost use Rattle.thirds.specs.Thirds.{cbrt_ranged, inv_cbrt_ranged, cbrt_squared_ranged, inv_cbrt_squared_ranged};
ghost use Rattle.host_lists.specs.Called.{called};
ghost use Rattle.host_lists.specs.Out.{number_in};

use host_lists::put;

pub fn pasoletu_exp(x: f64, out: &mut [u64]) -> u8
    ensures { called result (out.new ∷ []) ≡ number_in (bare x (exp_ranged x)) out.old }
{
    put(exponential::exp(x), out)
}

pub fn pasoletu_sinh(x: f64, out: &mut [u64]) -> u8
    ensures { called result (out.new ∷ []) ≡ number_in (bare x (sinh_ranged x)) out.old }
{
    put(exponential::sinh(x), out)
}

pub fn pasoletu_ln(x: f64, out: &mut [u64]) -> u8
    ensures { called result (out.new ∷ []) ≡ number_in (bare x (ln_ranged x)) out.old }
{
    put(logarithm::ln(x), out)
}

pub fn pasoletu_sin(x: f64, out: &mut [u64]) -> u8
    ensures { called result (out.new ∷ []) ≡ number_in (bare x (sin_ranged x)) out.old }
{
    put(sine::sin(x), out)
}

pub fn pasoletu_sqrt(x: f64, out: &mut [u64]) -> u8
    ensures { called result (out.new ∷ []) ≡ number_in (bare x (sqrt_ranged x)) out.old }
{
    put(square_root::sqrt(x), out)
}

pub fn pasoletu_cbrt(x: f64, out: &mut [u64]) -> u8
    ensures { called result (out.new ∷ []) ≡ number_in (bare x (cbrt_ranged x)) out.old }
{
    put(thirds::cbrt(x), out)
}

pub fn pasoletu_inv_cbrt(x: f64, out: &mut [u64]) -> u8
    ensures { called result (out.new ∷ []) ≡ number_in (bare x (inv_cbrt_ranged x)) out.old }
{
    put(thirds::inv_cbrt(x), out)
}

pub fn pasoletu_cbrt_squared(x: f64, out: &mut [u64]) -> u8
    ensures { called result (out.new ∷ []) ≡ number_in (bare x (cbrt_squared_ranged x)) out.old }
{
    put(thirds::cbrt_squared(x), out)
}

pub fn pasoletu_inv_cbrt_squared(x: f64, out: &mut [u64]) -> u8
    ensures { called result (out.new ∷ []) ≡ number_in (bare x (inv_cbrt_squared_ranged x)) out.old }
{
    put(thirds::inv_cbrt_squared(x), out)
}
