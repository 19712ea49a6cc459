// physics.rs for hosts.
ghost use Rattle.std.specs.Prelude.{◌≡◌, [], ◌∷◌, ◌&&◌};
ghost use Rattle.numbers.specs.Floats.{finite};
ghost use Rattle.answers.specs.Answer.{answered_of, given};
ghost use Rattle.physics.specs.Physics.{inv_exact_of, lambda_of, shear_modulus_of, bulk_modulus_of, shear_from_lame_of, bulk_from_lame_of};
ghost use Rattle.answers.specs.Answer.{pair_of, given_pair};
ghost use Rattle.physics.specs.Quadratic.{solve_quadratic_of};
ghost use Rattle.host_lists.specs.Called.{called};
ghost use Rattle.host_lists.specs.Out.{number_in, pair_in, matrix_in};
ghost use Rattle.host.specs.Calls.{spin_tensor, strain_rate, deviatoric_part, spherical_part};

#[unsafe(no_mangle)]
pub extern "C" fn pasoletu_inv_exact(e: f64, out: &mut [u64]) -> u8
    ensures { called result (out.new ∷ []) ≡ number_in (given (finite e) (answered_of (inv_exact_of e))) out.old }
{
    host::physics_calls::pasoletu_inv_exact(e, out)
}

#[unsafe(no_mangle)]
pub extern "C" fn pasoletu_shear_modulus(young: f64, poisson: f64, out: &mut [u64]) -> u8
    ensures { called result (out.new ∷ []) ≡ number_in (given (finite young && finite poisson) (answered_of (shear_modulus_of young poisson))) out.old }
{
    host::physics_calls::pasoletu_shear_modulus(young, poisson, out)
}

#[unsafe(no_mangle)]
pub extern "C" fn pasoletu_bulk_modulus(young: f64, poisson: f64, out: &mut [u64]) -> u8
    ensures { called result (out.new ∷ []) ≡ number_in (given (finite young && finite poisson) (answered_of (bulk_modulus_of young poisson))) out.old }
{
    host::physics_calls::pasoletu_bulk_modulus(young, poisson, out)
}

#[unsafe(no_mangle)]
pub extern "C" fn pasoletu_shear_modulus_from_lame(lambda: f64, mu: f64, out: &mut [u64]) -> u8
    ensures { called result (out.new ∷ []) ≡ number_in (given (finite lambda && finite mu) (answered_of (shear_from_lame_of lambda mu))) out.old }
{
    host::physics_calls::pasoletu_shear_modulus_from_lame(lambda, mu, out)
}

#[unsafe(no_mangle)]
pub extern "C" fn pasoletu_bulk_modulus_from_lame(lambda: f64, mu: f64, out: &mut [u64]) -> u8
    ensures { called result (out.new ∷ []) ≡ number_in (given (finite lambda && finite mu) (answered_of (bulk_from_lame_of lambda mu))) out.old }
{
    host::physics_calls::pasoletu_bulk_modulus_from_lame(lambda, mu, out)
}

// lambda, then mu.
#[unsafe(no_mangle)]
pub extern "C" fn pasoletu_lame_lambda_mu(young: f64, poisson: f64, out: &mut [u64]) -> u8
    ensures { called result (out.new ∷ []) ≡ pair_in (given_pair (finite young && finite poisson) (pair_of (lambda_of young poisson) (shear_modulus_of young poisson))) out.old }
{
    host::physics_calls::pasoletu_lame_lambda_mu(young, poisson, out)
}

#[unsafe(no_mangle)]
pub extern "C" fn pasoletu_solve_quadratic(a: f64, b: f64, c: f64, out: &mut [u64]) -> u8
    ensures { called result (out.new ∷ []) ≡ pair_in (solve_quadratic_of a b c) out.old }
{
    host::physics_calls::pasoletu_solve_quadratic(a, b, c, out)
}

#[unsafe(no_mangle)]
pub extern "C" fn pasoletu_spin_tensor(m: &[u64], out: &mut [u64]) -> u8
    ensures { called result (out.new ∷ []) ≡ matrix_in (spin_tensor m.now) out.old }
{
    host::physics_calls::pasoletu_spin_tensor(m, out)
}

#[unsafe(no_mangle)]
pub extern "C" fn pasoletu_strain_rate(m: &[u64], out: &mut [u64]) -> u8
    ensures { called result (out.new ∷ []) ≡ matrix_in (strain_rate m.now) out.old }
{
    host::physics_calls::pasoletu_strain_rate(m, out)
}

#[unsafe(no_mangle)]
pub extern "C" fn pasoletu_deviatoric_part(m: &[u64], out: &mut [u64]) -> u8
    ensures { called result (out.new ∷ []) ≡ matrix_in (deviatoric_part m.now) out.old }
{
    host::physics_calls::pasoletu_deviatoric_part(m, out)
}

#[unsafe(no_mangle)]
pub extern "C" fn pasoletu_spherical_part(m: &[u64], out: &mut [u64]) -> u8
    ensures { called result (out.new ∷ []) ≡ number_in (spherical_part m.now) out.old }
{
    host::physics_calls::pasoletu_spherical_part(m, out)
}
