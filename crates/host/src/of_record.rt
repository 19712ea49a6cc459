// Stresses and energies of a record by the solid laws, with its stored determinant. The laws' lists are those of `elasticity`.
ghost use Rattle.std.specs.Prelude.{◌≡◌, [], ◌∷◌};
ghost use Rattle.host_lists.specs.Called.{called};
ghost use Rattle.host_lists.specs.Out.{number_in, matrix_in};
ghost use Rattle.host.specs.OfRecord.{record_neo_hookean_fpk_stress, record_neo_hookean_elastic_energy_density, record_neo_hookean_elastic_energy_density_in, record_neo_hookean_pos_energy, record_corotated_elastic_energy_density, record_corotated_pos_energy};

pub fn pasoletu_record_neo_hookean_fpk_stress(law: &[u64], r: &[u64], out: &mut [u64]) -> u8
    ensures { called result (out.new ∷ []) ≡ matrix_in (record_neo_hookean_fpk_stress law.now r.now) out.old }
{
    let ok = (law.len() == 3) & (r.len() == record::FLOATS);
    let p = host_lists::neo_hookean(law);
    host_lists::put_matrix(
        host_lists::sized_matrix(ok, solid::neo_hookean::fpk_stress(p, r)),
        out,
    )
}

pub fn pasoletu_record_neo_hookean_elastic_energy_density(
    law: &[u64],
    r: &[u64],
    out: &mut [u64],
) -> u8
    ensures { called result (out.new ∷ []) ≡ number_in (record_neo_hookean_elastic_energy_density law.now r.now) out.old }
{
    let ok = (law.len() == 3) & (r.len() == record::FLOATS);
    let p = host_lists::neo_hookean(law);
    host_lists::put(
        host_lists::sized(ok, solid::neo_hookean::elastic_energy_density(p, r)),
        out,
    )
}

// `one_split` is a flag, told by its bits.
pub fn pasoletu_record_neo_hookean_elastic_energy_density_in(
    law: &[u64],
    one_split: f64,
    r: &[u64],
    out: &mut [u64],
) -> u8
    ensures { called result (out.new ∷ []) ≡ number_in (record_neo_hookean_elastic_energy_density_in law.now one_split r.now) out.old }
{
    let ok = (law.len() == 3) & (r.len() == record::FLOATS);
    let p = host_lists::neo_hookean(law);
    let w = numbers::bits_of(one_split);
    let a = solid::neo_hookean::elastic_energy_density_in(w != 0, p, r);
    host_lists::put(host_lists::sized(ok, host_lists::flagged(w, a)), out)
}

pub fn pasoletu_record_neo_hookean_pos_energy(law: &[u64], r: &[u64], out: &mut [u64]) -> u8
    ensures { called result (out.new ∷ []) ≡ number_in (record_neo_hookean_pos_energy law.now r.now) out.old }
{
    let ok = (law.len() == 3) & (r.len() == record::FLOATS);
    let p = host_lists::neo_hookean(law);
    host_lists::put(
        host_lists::sized(ok, solid::neo_hookean::pos_energy(p, r)),
        out,
    )
}

pub fn pasoletu_record_corotated_elastic_energy_density(
    law: &[u64],
    r: &[u64],
    out: &mut [u64],
) -> u8
    ensures { called result (out.new ∷ []) ≡ number_in (record_corotated_elastic_energy_density law.now r.now) out.old }
{
    let ok = (law.len() == 4) & (r.len() == record::FLOATS);
    let a = solid::corotated_linear::elastic_energy_density(host_lists::corotated(law), r);
    host_lists::put(
        host_lists::sized(ok, host_lists::flagged(record::word(law, 0), a)),
        out,
    )
}

pub fn pasoletu_record_corotated_pos_energy(law: &[u64], r: &[u64], out: &mut [u64]) -> u8
    ensures { called result (out.new ∷ []) ≡ number_in (record_corotated_pos_energy law.now r.now) out.old }
{
    let ok = (law.len() == 4) & (r.len() == record::FLOATS);
    let a = solid::corotated_linear::pos_energy(host_lists::corotated(law), r);
    host_lists::put(
        host_lists::sized(ok, host_lists::flagged(record::word(law, 0), a)),
        out,
    )
}
