// The elastic laws for hosts: neo-Hookean with a list of cfl_coeff, lambda, mu; corotated with the flag before them.
ghost use Rattle.std.specs.Prelude.{◌≡◌, [], ◌∷◌};
ghost use Rattle.elasticity_neo_hookean.specs.Law.{phase_coeff};
ghost use Rattle.host_lists.specs.Called.{called};
ghost use Rattle.host_lists.specs.Out.{number_in, matrix_in};
ghost use Rattle.host.specs.Calls.{neo_hookean_fpk_stress, neo_hookean_elastic_energy_density, neo_hookean_elastic_energy_density_in, neo_hookean_pos_energy, corotated_elastic_energy_density, corotated_pos_energy};

#[unsafe(no_mangle)]
pub extern "C" fn pasoletu_neo_hookean_fpk_stress(
    law: &[u64],
    hardening: f64,
    f: &[u64],
    out: &mut [u64],
) -> u8
    ensures { called result (out.new ∷ []) ≡ matrix_in (neo_hookean_fpk_stress law.now hardening f.now) out.old }
{
    host::elasticity::pasoletu_neo_hookean_fpk_stress(law, hardening, f, out)
}

#[unsafe(no_mangle)]
pub extern "C" fn pasoletu_neo_hookean_elastic_energy_density(
    law: &[u64],
    phase: f64,
    hardening: f64,
    f: &[u64],
    out: &mut [u64],
) -> u8
    ensures { called result (out.new ∷ []) ≡ number_in (neo_hookean_elastic_energy_density law.now phase hardening f.now) out.old }
{
    host::elasticity::pasoletu_neo_hookean_elastic_energy_density(law, phase, hardening, f, out)
}

// `one_split` is a flag, told by its bits.
#[unsafe(no_mangle)]
pub extern "C" fn pasoletu_neo_hookean_elastic_energy_density_in(
    law: &[u64],
    one_split: f64,
    phase: f64,
    hardening: f64,
    f: &[u64],
    out: &mut [u64],
) -> u8
    ensures { called result (out.new ∷ []) ≡ number_in (neo_hookean_elastic_energy_density_in law.now one_split phase hardening f.now) out.old }
{
    host::elasticity::pasoletu_neo_hookean_elastic_energy_density_in(
        law, one_split, phase, hardening, f, out,
    )
}

#[unsafe(no_mangle)]
pub extern "C" fn pasoletu_neo_hookean_pos_energy(
    law: &[u64],
    phase: f64,
    hardening: f64,
    f: &[u64],
    out: &mut [u64],
) -> u8
    ensures { called result (out.new ∷ []) ≡ number_in (neo_hookean_pos_energy law.now phase hardening f.now) out.old }
{
    host::elasticity::pasoletu_neo_hookean_pos_energy(law, phase, hardening, f, out)
}

#[unsafe(no_mangle)]
pub extern "C" fn pasoletu_phase_coeff(phase: f64, out: &mut [u64]) -> u8
    ensures { called result (out.new ∷ []) ≡ number_in (phase_coeff phase) out.old }
{
    host::elasticity::pasoletu_phase_coeff(phase, out)
}

#[unsafe(no_mangle)]
pub extern "C" fn pasoletu_corotated_elastic_energy_density(
    law: &[u64],
    hardening: f64,
    sigma: &[u64],
    out: &mut [u64],
) -> u8
    ensures { called result (out.new ∷ []) ≡ number_in (corotated_elastic_energy_density law.now hardening sigma.now) out.old }
{
    host::elasticity::pasoletu_corotated_elastic_energy_density(law, hardening, sigma, out)
}

#[unsafe(no_mangle)]
pub extern "C" fn pasoletu_corotated_pos_energy(
    law: &[u64],
    hardening: f64,
    f: &[u64],
    sigma: &[u64],
    out: &mut [u64],
) -> u8
    ensures { called result (out.new ∷ []) ≡ number_in (corotated_pos_energy law.now hardening f.now sigma.now) out.old }
{
    host::elasticity::pasoletu_corotated_pos_energy(law, hardening, f, sigma, out)
}
