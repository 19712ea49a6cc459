// Stresses and energies of a record by the solid laws, with its stored determinant. The laws' lists are those of `elasticity`.
ghost use Rattle.std.specs.Prelude.{◌≡◌, [], ◌∷◌};
ghost use Rattle.host_lists.specs.Called.{called};
ghost use Rattle.host_lists.specs.Out.{number_in, matrix_in};
ghost use Rattle.host.specs.OfRecord.{record_neo_hookean_fpk_stress, record_neo_hookean_elastic_energy_density, record_neo_hookean_elastic_energy_density_in, record_neo_hookean_pos_energy, record_corotated_elastic_energy_density, record_corotated_pos_energy};

#[unsafe(no_mangle)]
pub extern "C" fn pasoletu_record_neo_hookean_fpk_stress(
    law: &[u64],
    r: &[u64],
    out: &mut [u64],
) -> u8
    ensures { called result (out.new ∷ []) ≡ matrix_in (record_neo_hookean_fpk_stress law.now r.now) out.old }
{
    host::of_record::pasoletu_record_neo_hookean_fpk_stress(law, r, out)
}

#[unsafe(no_mangle)]
pub extern "C" fn pasoletu_record_neo_hookean_elastic_energy_density(
    law: &[u64],
    r: &[u64],
    out: &mut [u64],
) -> u8
    ensures { called result (out.new ∷ []) ≡ number_in (record_neo_hookean_elastic_energy_density law.now r.now) out.old }
{
    host::of_record::pasoletu_record_neo_hookean_elastic_energy_density(law, r, out)
}

// `one_split` is a flag, told by its bits.
#[unsafe(no_mangle)]
pub extern "C" fn pasoletu_record_neo_hookean_elastic_energy_density_in(
    law: &[u64],
    one_split: f64,
    r: &[u64],
    out: &mut [u64],
) -> u8
    ensures { called result (out.new ∷ []) ≡ number_in (record_neo_hookean_elastic_energy_density_in law.now one_split r.now) out.old }
{
    host::of_record::pasoletu_record_neo_hookean_elastic_energy_density_in(law, one_split, r, out)
}

#[unsafe(no_mangle)]
pub extern "C" fn pasoletu_record_neo_hookean_pos_energy(
    law: &[u64],
    r: &[u64],
    out: &mut [u64],
) -> u8
    ensures { called result (out.new ∷ []) ≡ number_in (record_neo_hookean_pos_energy law.now r.now) out.old }
{
    host::of_record::pasoletu_record_neo_hookean_pos_energy(law, r, out)
}

#[unsafe(no_mangle)]
pub extern "C" fn pasoletu_record_corotated_elastic_energy_density(
    law: &[u64],
    r: &[u64],
    out: &mut [u64],
) -> u8
    ensures { called result (out.new ∷ []) ≡ number_in (record_corotated_elastic_energy_density law.now r.now) out.old }
{
    host::of_record::pasoletu_record_corotated_elastic_energy_density(law, r, out)
}

#[unsafe(no_mangle)]
pub extern "C" fn pasoletu_record_corotated_pos_energy(
    law: &[u64],
    r: &[u64],
    out: &mut [u64],
) -> u8
    ensures { called result (out.new ∷ []) ≡ number_in (record_corotated_pos_energy law.now r.now) out.old }
{
    host::of_record::pasoletu_record_corotated_pos_energy(law, r, out)
}
