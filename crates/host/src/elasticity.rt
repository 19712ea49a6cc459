// The elastic laws for hosts: neo-Hookean with a list of cfl_coeff, lambda, mu; corotated with the flag before them.
ghost use Rattle.std.specs.Prelude.{◌≡◌, [], ◌∷◌};
ghost use Rattle.elasticity_neo_hookean.specs.Law.{phase_coeff};
ghost use Rattle.host_lists.specs.Called.{called};
ghost use Rattle.host_lists.specs.Out.{number_in, matrix_in};
ghost use Rattle.host.specs.Calls.{neo_hookean_fpk_stress, neo_hookean_elastic_energy_density, neo_hookean_elastic_energy_density_in, neo_hookean_pos_energy, corotated_elastic_energy_density, corotated_pos_energy};

use elasticity_neo_hookean::NeoHookeanElasticity;

pub fn pasoletu_neo_hookean_fpk_stress(
    law: &[u64],
    hardening: f64,
    f: &[u64],
    out: &mut [u64],
) -> u8
    ensures { called result (out.new ∷ []) ≡ matrix_in (neo_hookean_fpk_stress law.now hardening f.now) out.old }
{
    let ok = (law.len() == 3) & (f.len() == 9);
    let p = host_lists::neo_hookean(law);
    host_lists::put_matrix(
        host_lists::sized_matrix(ok, p.fpk_stress(host_lists::matrix(f), hardening)),
        out,
    )
}

pub fn pasoletu_neo_hookean_elastic_energy_density(
    law: &[u64],
    phase: f64,
    hardening: f64,
    f: &[u64],
    out: &mut [u64],
) -> u8
    ensures { called result (out.new ∷ []) ≡ number_in (neo_hookean_elastic_energy_density law.now phase hardening f.now) out.old }
{
    let ok = (law.len() == 3) & (f.len() == 9);
    let p = host_lists::neo_hookean(law);
    host_lists::put(
        host_lists::sized(
            ok,
            p.elastic_energy_density(phase, hardening, host_lists::matrix(f)),
        ),
        out,
    )
}

// `one_split` is a flag, told by its bits.
pub fn pasoletu_neo_hookean_elastic_energy_density_in(
    law: &[u64],
    one_split: f64,
    phase: f64,
    hardening: f64,
    f: &[u64],
    out: &mut [u64],
) -> u8
    ensures { called result (out.new ∷ []) ≡ number_in (neo_hookean_elastic_energy_density_in law.now one_split phase hardening f.now) out.old }
{
    let ok = (law.len() == 3) & (f.len() == 9);
    let p = host_lists::neo_hookean(law);
    let w = numbers::bits_of(one_split);
    let a = p.elastic_energy_density_in(w != 0, phase, hardening, host_lists::matrix(f));
    host_lists::put(host_lists::sized(ok, host_lists::flagged(w, a)), out)
}

pub fn pasoletu_neo_hookean_pos_energy(
    law: &[u64],
    phase: f64,
    hardening: f64,
    f: &[u64],
    out: &mut [u64],
) -> u8
    ensures { called result (out.new ∷ []) ≡ number_in (neo_hookean_pos_energy law.now phase hardening f.now) out.old }
{
    let ok = (law.len() == 3) & (f.len() == 9);
    let p = host_lists::neo_hookean(law);
    host_lists::put(
        host_lists::sized(ok, p.pos_energy(phase, hardening, host_lists::matrix(f))),
        out,
    )
}

pub fn pasoletu_phase_coeff(phase: f64, out: &mut [u64]) -> u8
    ensures { called result (out.new ∷ []) ≡ number_in (phase_coeff phase) out.old }
{
    host_lists::put(NeoHookeanElasticity::phase_coeff(phase), out)
}

pub fn pasoletu_corotated_elastic_energy_density(
    law: &[u64],
    hardening: f64,
    sigma: &[u64],
    out: &mut [u64],
) -> u8
    ensures { called result (out.new ∷ []) ≡ number_in (corotated_elastic_energy_density law.now hardening sigma.now) out.old }
{
    let ok = (law.len() == 4) & (sigma.len() == 3);
    let p = host_lists::corotated(law);
    let a = p.elastic_energy_density(host_lists::row(sigma), hardening);
    host_lists::put(
        host_lists::sized(ok, host_lists::flagged(record::word(law, 0), a)),
        out,
    )
}

pub fn pasoletu_corotated_pos_energy(
    law: &[u64],
    hardening: f64,
    f: &[u64],
    sigma: &[u64],
    out: &mut [u64],
) -> u8
    ensures { called result (out.new ∷ []) ≡ number_in (corotated_pos_energy law.now hardening f.now sigma.now) out.old }
{
    let ok = (law.len() == 4) & (f.len() == 9) & (sigma.len() == 3);
    let p = host_lists::corotated(law);
    let a = p.pos_energy(host_lists::matrix(f), host_lists::row(sigma), hardening);
    host_lists::put(
        host_lists::sized(ok, host_lists::flagged(record::word(law, 0), a)),
        out,
    )
}
