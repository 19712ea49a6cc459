// exp, sinh, ln, sin and the roots.
ghost use Rattle.std.specs.Prelude.{◌≡◌, [], ◌∷◌};
ghost use Rattle.answers.specs.Range.{bare};
ghost use Rattle.exponential.specs.Exp.{exp_ranged};
ghost use Rattle.exponential.specs.Sinh.{sinh_ranged};
ghost use Rattle.logarithm.specs.Ln.{ln_ranged};
ghost use Rattle.sine.specs.Sine.{sin_ranged};
ghost use Rattle.square_root.specs.Sqrt.{sqrt_ranged};
ghost use Rattle.thirds.specs.Thirds.{cbrt_ranged, inv_cbrt_ranged, cbrt_squared_ranged, inv_cbrt_squared_ranged};
ghost use Rattle.host_lists.specs.Called.{called};
ghost use Rattle.host_lists.specs.Out.{number_in};

#[unsafe(no_mangle)]
pub extern "C" fn pasoletu_exp(x: f64, out: &mut [u64]) -> u8
    ensures { called result (out.new ∷ []) ≡ number_in (bare x (exp_ranged x)) out.old }
{
    host::pasoletu_exp(x, out)
}

#[unsafe(no_mangle)]
pub extern "C" fn pasoletu_sinh(x: f64, out: &mut [u64]) -> u8
    ensures { called result (out.new ∷ []) ≡ number_in (bare x (sinh_ranged x)) out.old }
{
    host::pasoletu_sinh(x, out)
}

#[unsafe(no_mangle)]
pub extern "C" fn pasoletu_ln(x: f64, out: &mut [u64]) -> u8
    ensures { called result (out.new ∷ []) ≡ number_in (bare x (ln_ranged x)) out.old }
{
    host::pasoletu_ln(x, out)
}

#[unsafe(no_mangle)]
pub extern "C" fn pasoletu_sin(x: f64, out: &mut [u64]) -> u8
    ensures { called result (out.new ∷ []) ≡ number_in (bare x (sin_ranged x)) out.old }
{
    host::pasoletu_sin(x, out)
}

#[unsafe(no_mangle)]
pub extern "C" fn pasoletu_sqrt(x: f64, out: &mut [u64]) -> u8
    ensures { called result (out.new ∷ []) ≡ number_in (bare x (sqrt_ranged x)) out.old }
{
    host::pasoletu_sqrt(x, out)
}

#[unsafe(no_mangle)]
pub extern "C" fn pasoletu_cbrt(x: f64, out: &mut [u64]) -> u8
    ensures { called result (out.new ∷ []) ≡ number_in (bare x (cbrt_ranged x)) out.old }
{
    host::pasoletu_cbrt(x, out)
}

#[unsafe(no_mangle)]
pub extern "C" fn pasoletu_inv_cbrt(x: f64, out: &mut [u64]) -> u8
    ensures { called result (out.new ∷ []) ≡ number_in (bare x (inv_cbrt_ranged x)) out.old }
{
    host::pasoletu_inv_cbrt(x, out)
}

#[unsafe(no_mangle)]
pub extern "C" fn pasoletu_cbrt_squared(x: f64, out: &mut [u64]) -> u8
    ensures { called result (out.new ∷ []) ≡ number_in (bare x (cbrt_squared_ranged x)) out.old }
{
    host::pasoletu_cbrt_squared(x, out)
}

#[unsafe(no_mangle)]
pub extern "C" fn pasoletu_inv_cbrt_squared(x: f64, out: &mut [u64]) -> u8
    ensures { called result (out.new ∷ []) ≡ number_in (bare x (inv_cbrt_squared_ranged x)) out.old }
{
    host::pasoletu_inv_cbrt_squared(x, out)
}
