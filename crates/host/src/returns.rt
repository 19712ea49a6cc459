// The bare clamp, Rankine's projection, Drucker-Prager's slope and DecomposedTensor's product for hosts.
ghost use Rattle.std.specs.Prelude.{◌≡◌, [], ◌∷◌};
ghost use Rattle.host_lists.specs.Called.{called};
ghost use Rattle.host_lists.specs.Out.{number_in, vector_in};
ghost use Rattle.host.specs.Calls.{snow_of, snow_clamp, vector_of, rankine_project, drucker_prager_alpha, decomposed_times};

use plasticity_snow::SnowPlasticity;
use tensor::VectorAnswer;

pub fn pasoletu_snow_clamp(
    min_epsilon: f64,
    max_epsilon: f64,
    hardening_coeff: f64,
    sigma: &[u64],
    out: &mut [u64],
) -> u8
    ensures { called result (out.new ∷ []) ≡ vector_in (snow_clamp (snow_of min_epsilon max_epsilon hardening_coeff) sigma.now) out.old }
{
    let ok = sigma.len() == 3;
    let law = SnowPlasticity {
        min_epsilon,
        max_epsilon,
        hardening_coeff,
    };
    let v = law.project_deformation_gradient(host_lists::row(sigma));
    host_lists::put_vector(host_lists::sized_vector(ok, vector(v)), out)
}

// A vector that is answered whatever it holds.
fn vector(v: [f64; 3]) -> VectorAnswer
    ensures { result ≡ vector_of v }
{
    VectorAnswer {
        refusal: 0,
        vector: v,
    }
}

pub fn pasoletu_rankine_project(arguments: &[u64], s: f64, strains: &[u64], out: &mut [u64]) -> u8
    ensures { called result (out.new ∷ []) ≡ vector_in (rankine_project arguments.now s strains.now) out.old }
{
    let ok = (arguments.len() == 4) & (strains.len() == 3);
    let a = model::rankine(arguments);
    host_lists::put_vector(
        host_lists::sized_vector(ok, a.project(host_lists::row(strains), s)),
        out,
    )
}

pub fn pasoletu_drucker_prager_alpha(fields: &[u64], q: f64, out: &mut [u64]) -> u8
    ensures { called result (out.new ∷ []) ≡ number_in (drucker_prager_alpha fields.now q) out.old }
{
    let ok = fields.len() == 8;
    let p = model::drucker_prager(fields);
    host_lists::put(
        host_lists::sized(ok, host_lists::flagged(record::word(fields, 6), p.alpha(q))),
        out,
    )
}

pub fn pasoletu_decomposed_times(
    spherical: f64,
    deviatoric: &[u64],
    v: &[u64],
    out: &mut [u64],
) -> u8
    ensures { called result (out.new ∷ []) ≡ vector_in (decomposed_times spherical deviatoric.now v.now) out.old }
{
    let ok = (deviatoric.len() == 9) & (v.len() == 3);
    let t = host_lists::decomposed(spherical, deviatoric);
    host_lists::put_vector(
        host_lists::sized_vector(ok, t.times(host_lists::row(v))),
        out,
    )
}
