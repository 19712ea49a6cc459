// The bare clamp, Rankine's projection, Drucker-Prager's slope and DecomposedTensor's product for hosts.
ghost use Rattle.std.specs.Prelude.{◌≡◌, [], ◌∷◌};
ghost use Rattle.host_lists.specs.Called.{called};
ghost use Rattle.host_lists.specs.Out.{number_in, vector_in};
ghost use Rattle.host.specs.Calls.{snow_of, snow_clamp, rankine_project, drucker_prager_alpha, decomposed_times};

#[unsafe(no_mangle)]
pub extern "C" fn pasoletu_snow_clamp(
    min_epsilon: f64,
    max_epsilon: f64,
    hardening_coeff: f64,
    sigma: &[u64],
    out: &mut [u64],
) -> u8
    ensures { called result (out.new ∷ []) ≡ vector_in (snow_clamp (snow_of min_epsilon max_epsilon hardening_coeff) sigma.now) out.old }
{
    host::returns::pasoletu_snow_clamp(min_epsilon, max_epsilon, hardening_coeff, sigma, out)
}

#[unsafe(no_mangle)]
pub extern "C" fn pasoletu_rankine_project(
    arguments: &[u64],
    s: f64,
    strains: &[u64],
    out: &mut [u64],
) -> u8
    ensures { called result (out.new ∷ []) ≡ vector_in (rankine_project arguments.now s strains.now) out.old }
{
    host::returns::pasoletu_rankine_project(arguments, s, strains, out)
}

#[unsafe(no_mangle)]
pub extern "C" fn pasoletu_drucker_prager_alpha(fields: &[u64], q: f64, out: &mut [u64]) -> u8
    ensures { called result (out.new ∷ []) ≡ number_in (drucker_prager_alpha fields.now q) out.old }
{
    host::returns::pasoletu_drucker_prager_alpha(fields, q, out)
}

#[unsafe(no_mangle)]
pub extern "C" fn pasoletu_decomposed_times(
    spherical: f64,
    deviatoric: &[u64],
    v: &[u64],
    out: &mut [u64],
) -> u8
    ensures { called result (out.new ∷ []) ≡ vector_in (decomposed_times spherical deviatoric.now v.now) out.old }
{
    host::returns::pasoletu_decomposed_times(spherical, deviatoric, v, out)
}
