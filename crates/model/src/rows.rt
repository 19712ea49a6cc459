// A law is a row: each function here has one arm a law, and no other crate of three axes has any. A new law adds its arms, and its
// reader of bits.
ghost use Rattle.std.specs.Prelude.{◌≡◌, true, cond, length};
ghost use Rattle.plasticity.specs.State.{scalars_finite, inputs_finite};
ghost use Rattle.record.specs.Layout.{floats};
ghost use Rattle.model.specs.Rows.{whole, row_of, snow_of, rankine_of, drucker_prager_of, nacc_of, rankine_ready, nacc_ready};
ghost use Rattle.model.specs.Kinds.{shape_of, model_known};
ghost use Rattle.model.specs.Fields.{model_of};
ghost use Rattle.model.specs.Model.{model_finite, model_reason};
ghost use Rattle.model.specs.Ready.{ready_of, ready_finite, parameters_ready, ready_update};
ghost use Rattle.model.specs.declared.Ready.TheVariants.{Refused};
ghost use Rattle.model.specs.Named.{ready_scalars};

use crate::{Law, Model, Ready};
use plasticity::{State, Updated};
use plasticity_drucker_prager::DruckerPragerPlasticity;
use plasticity_nacc::{NaccArguments, NaccPlasticity};
use plasticity_rankine::{RankineArguments, RankinePlasticity};
use plasticity_snow::SnowPlasticity;
use reason::Reason;

// A model's law, how many parameters it has, and the place of its flag: behind them where it has none.
#[derive(Drop)]
pub struct Shape {
    pub law: Law,
    pub count: usize,
    pub flag: usize,
}

// Of each law its number, and that of sheets whose records end with the determinant. Drucker-Prager's flag is only_active_when_failed, NACC's
// hardening_enabled.
pub fn shape_of(number: u64) -> Shape
    ensures { result ≡ shape_of number }
{
    if (number == 0) | (number == 4) {
        Shape {
            law: Law::Snow,
            count: 3,
            flag: 3,
        }
    } else if (number == 1) | (number == 5) {
        Shape {
            law: Law::Rankine,
            count: 4,
            flag: 4,
        }
    } else if (number == 2) | (number == 6) {
        Shape {
            law: Law::DruckerPrager,
            count: 8,
            flag: 6,
        }
    } else if (number == 3) | (number == 7) {
        Shape {
            law: Law::Nacc,
            count: 6,
            flag: 3,
        }
    } else {
        Shape {
            law: Law::Unknown,
            count: 0,
            flag: 0,
        }
    }
}

// Whether the records of a model's sheets end with the determinant.
pub fn whole(number: u64) -> bool
    ensures { result ≡ whole number }
{
    !((number == 0) | (number == 1) | (number == 2) | (number == 3))
}

// The branch that a test chose, by its number in docs/STEPS.md and whether it held: 0 is untouched, else as RULES, section 5, names them.
pub fn branch(law: Law, test: u8, held: bool) -> u64
    ensures { result ≡ (row_of law).branch test held }
{
    match law {
        Law::Snow => plasticity_snow::branch_number(),
        Law::Rankine => plasticity_rankine::branch_number(test, held),
        Law::DruckerPrager => plasticity_drucker_prager::branch_number(test, held),
        Law::Nacc => plasticity_nacc::branch_number(test, held),
        Law::Unknown => 0,
    }
}

// ---- the laws from their parameters' bits, in declared order; a place past the end reads as 0
fn snow(p: &[u64]) -> SnowPlasticity
    ensures { result ≡ snow_of p.now }
{
    SnowPlasticity {
        min_epsilon: record::float(p, 0),
        max_epsilon: record::float(p, 1),
        hardening_coeff: record::float(p, 2),
    }
}

pub fn rankine(p: &[u64]) -> RankineArguments
    ensures { result ≡ rankine_of p.now }
{
    RankineArguments {
        young_modulus: record::float(p, 0),
        poisson_ratio: record::float(p, 1),
        tensile_strength: record::float(p, 2),
        softening_rate: record::float(p, 3),
    }
}

pub fn drucker_prager(p: &[u64]) -> DruckerPragerPlasticity
    ensures { result ≡ drucker_prager_of p.now }
{
    DruckerPragerPlasticity {
        h0: record::float(p, 0),
        h1: record::float(p, 1),
        h2: record::float(p, 2),
        h3: record::float(p, 3),
        lambda: record::float(p, 4),
        mu: record::float(p, 5),
        only_active_when_failed: record::word(p, 6) != 0,
        volume_correction: record::float(p, 7),
    }
}

fn nacc(p: &[u64]) -> NaccArguments
    ensures { result ≡ nacc_of p.now }
{
    NaccArguments {
        young_modulus: record::float(p, 0),
        poisson_ratio: record::float(p, 1),
        cohesion: record::float(p, 2),
        hardening_enabled: record::word(p, 3) != 0,
        hardening_factor: record::float(p, 4),
        m: record::float(p, 5),
    }
}

// The law that a model's number and parameters name: one of the eight, and each flag is one. No number of none comes here.
pub fn model_of(number: u64, p: &[u64]) -> Model
    requires { model_known number p.now ≡ true }
    ensures { result ≡ model_of number p.now }
{
    let k = shape_of(number);
    let law = k.law;
    match law {
        Law::Snow => Model::Snow(snow(p)),
        Law::Rankine => Model::Rankine(rankine(p)),
        Law::DruckerPrager => Model::DruckerPrager(drucker_prager(p)),
        Law::Nacc => Model::Nacc(nacc(p)),
        Law::Unknown => Model::Snow(snow(p)),
    }
}

// ---- by the parameters
// Why the update by the model's law answers as it does.
pub fn reason_of(m: Model, u: [[f64; 3]; 3], vt: [[f64; 3]; 3], s: State) -> Reason
    ensures { result ≡ model_reason m u vt s }
{
    match m {
        Model::Snow(p) => p.reason(u, vt, s),
        Model::Rankine(a) => a.reason(u, vt, s),
        Model::DruckerPrager(p) => p.reason(u, vt, s),
        Model::Nacc(a) => a.reason(u, vt, s),
    }
}

// ---- made ready
fn ready_if(finite: bool, n: u8, q: Ready) -> Ready
    ensures { result ≡ cond finite q (Refused n) }
{
    if finite { q } else { Ready::Refused(n) }
}

fn ready_rankine(p: RankinePlasticity) -> Ready
    ensures { result ≡ rankine_ready p }
{
    ready_if(p.moduli_finite(), answers::NO_NUMBER, Ready::Rankine(p))
}

fn ready_nacc(p: NaccPlasticity) -> Ready
    ensures { result ≡ nacc_ready p }
{
    ready_if(p.moduli_finite(), answers::NO_NUMBER, Ready::Nacc(p))
}

// A model made ready once: 1 for a parameter, then 3 for a modulus.
pub fn make_ready(m: Model) -> Ready
    ensures { result ≡ ready_of m }
{
    match m {
        Model::Snow(p) => ready_if(p.parameters_finite(), answers::NOT_FINITE, Ready::Snow(p)),
        Model::Rankine(a) => ready_if(
            a.parameters_finite(),
            answers::NOT_FINITE,
            ready_rankine(a.law()),
        ),
        Model::DruckerPrager(p) => ready_if(
            p.parameters_finite(),
            answers::NOT_FINITE,
            Ready::DruckerPrager(p),
        ),
        Model::Nacc(a) => ready_if(
            a.parameters_finite(),
            answers::NOT_FINITE,
            ready_nacc(a.law()),
        ),
    }
}

// Whether the parameters of the model are finite.
pub fn parameters_ready(q: Ready) -> bool
    ensures { result ≡ parameters_ready q }
{
    match q {
        Ready::Snow(_) => true,
        Ready::Rankine(_) => true,
        Ready::DruckerPrager(_) => true,
        Ready::Nacc(_) => true,
        Ready::Refused(n) => n != answers::NOT_FINITE,
    }
}

// Whether every float of the parameters is finite.
pub fn model_finite(m: Model) -> bool
    ensures { result ≡ model_finite m }
{
    parameters_ready(make_ready(m))
}

// The update of a finite record: nothing of the model is tested again.
pub fn update_ready(q: Ready, u: [[f64; 3]; 3], vt: [[f64; 3]; 3], s: State) -> Updated
    requires { (ready_finite q ≡ true) × (inputs_finite u vt s ≡ true) }
    ensures { result ≡ ready_update q u vt s }
{
    match q {
        Ready::Snow(p) => p.update_ready(u, vt, s),
        Ready::Rankine(p) => p.update_ready(u, vt, s),
        Ready::DruckerPrager(p) => p.update_ready(u, vt, s),
        Ready::Nacc(p) => p.update_ready(u, vt, s),
        Ready::Refused(n) => plasticity::refuse(n, s),
    }
}

// Of the six scalars of a record those that the law names are written, all of them finite; a model that is refused stores nothing.
pub fn write_scalars(q: Ready, r: &mut [u64], s: State)
    requires { (length r.old ≡ floats) × (scalars_finite s.scalars ≡ true) }
    ensures { r.new ≡ ready_scalars q r.old s }
{
    match q {
        Ready::Snow(_) => {
            r[record::PLASTIC_DETERMINANT] = record::finite_bits(s.scalars.plastic_determinant);
            r[record::ELASTIC_HARDENING] = record::finite_bits(s.scalars.elastic_hardening);
        }
        Ready::Rankine(_) => {
            r[record::PLASTIC_HARDENING] = record::finite_bits(s.scalars.plastic_hardening);
        }
        Ready::DruckerPrager(_) => {
            r[record::PLASTIC_DETERMINANT] = record::finite_bits(s.scalars.plastic_determinant);
            r[record::PLASTIC_HARDENING] = record::finite_bits(s.scalars.plastic_hardening);
            r[record::LOG_GAIN] = record::finite_bits(s.scalars.log_gain);
        }
        Ready::Nacc(_) => {
            r[record::ALPHA] = record::finite_bits(s.scalars.alpha);
        }
        Ready::Refused(_) => {}
    }
}
