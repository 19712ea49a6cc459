// Our own factors of a record, by themselves or before a step (RULES, section 7).
ghost use Rattle.std.specs.Prelude.{◌≡◌, true, cond, eqb, length};
ghost use Rattle.record.specs.Layout.{floats};
ghost use Rattle.model.specs.Ready.{ready_finite};
ghost use Rattle.factored_particles.specs.Factored.{put_factors, with_factors, factor_refusal, factor_law, held_by};
ghost use Rattle.factored_particles.specs.Step.{ready_first};

use factors::Factors;
use model::Ready;
use one_record::{Judge, Stepped};
use plasticity::Outcome;

fn write_factors(r: &mut [u64], x: Factors)
    requires { length r.old ≡ floats }
    ensures { r.new ≡ put_factors r.old x }
{
    let u = x.u;
    let sigma = x.sigma;
    let vt = x.vt;
    record::write_rows(r, record::U, u);
    record::write_row(r, record::SIGMA, sigma);
    record::write_rows(r, record::VT, vt);
}

// The factors of F into the record, or the number that refuses them: then the record keeps its bits.
fn factor(r: &mut [u64]) -> u8
    requires { length r.old ≡ floats }
    ensures { (result ≡ factor_refusal r.old) × (r.new ≡ cond (eqb (factor_refusal r.old) 0) (with_factors r.old) r.old) }
{
    if !record::all_finite(&r[..]) {
        return answers::NOT_FINITE;
    }
    if !record::determinant_right(&r[..]) {
        return answers::WRONG_DETERMINANT;
    }
    let x = factors::factored(record::read_f(&r[..]));
    if x.refusal != 0 {
        return x.refusal;
    }
    let f = x.factors;
    write_factors(r, f);
    0
}

// By themselves.
pub fn alone(r: &mut [u64]) -> Outcome
    requires { length r.old ≡ floats }
    ensures { (result ≡ (factor_law r.old).outcome) × (r.new ≡ (factor_law r.old).after) }
{
    let n = factor(r);
    if n == 0 {
        Outcome::Stored(0.0)
    } else {
        Outcome::Refused(n)
    }
}

// A step that refused leaves the record as it came.
fn hold(o: Outcome, old: &[u64], r: &mut [u64])
    requires { length old.now ≡ length r.old }
    ensures { r.new ≡ held_by o old.now r.old }
{
    match o {
        Outcome::Untouched => {}
        Outcome::Stored(_) => {}
        Outcome::Refused(_) => {
            one_record::copy(old, r);
        }
    }
}

// Before the law, and the verdict where there is a judge.
pub fn first(q: Ready, j: Judge, r: &mut [u64]) -> Stepped
    requires { (length r.old ≡ floats) × (ready_finite q ≡ true) }
    ensures outcome { result.outcome ≡ (ready_first q j r.old).outcome }
    ensures failed { result.failed ≡ (ready_first q j r.old).failed }
    ensures record { r.new ≡ (ready_first q j r.old).after }
{
    if !(model::parameters_ready(q) & one_record::judge_finite(j)) {
        return Stepped {
            outcome: Outcome::Refused(answers::NOT_FINITE),
            failed: false,
        };
    }
    let mut old = [0u64; record::FLOATS];
    one_record::copy(&r[..], &mut old);
    let n = factor(r);
    if n != 0 {
        return Stepped {
            outcome: Outcome::Refused(n),
            failed: false,
        };
    }
    let d = one_record::finite_step(q, j, r);
    let o = d.outcome;
    hold(o, &old, r);
    d
}
