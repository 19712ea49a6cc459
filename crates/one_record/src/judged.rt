// One record: its law, and then the verdict on what the law leaves, where there is a judge.
ghost use Rattle.std.specs.Prelude.{◌≡◌, true, cond, eqb, length};
ghost use Rattle.record.specs.Layout.{floats, state_at, record_finite};
ghost use Rattle.failure_maximum_stress.specs.Failure.{verdict_of};
ghost use Rattle.failure_maximum_stress.specs.declared.Verdict.{Verdict};
ghost use Rattle.failure_maximum_stress.specs.declared.Verdict.TheVariants as verdict;
ghost use Rattle.model.specs.Ready.{ready_finite};
ghost use Rattle.one_record.specs.Judged.{verdict_after, unless_refused, verdict_by, marked, outcome_by, failed_by, finite_by};
ghost use Rattle.one_record.specs.RecordLaw.{Beside};
ghost use Rattle.one_record.specs.ReadyRecord.{ready_kept_by, ready_marked, ready_law};

use crate::record_law::Left;
use crate::{record_law, stored};
use elasticity_corotated_linear::CorotatedLinearElasticity;
use failure_maximum_stress::{MaximumStressFailure, Verdict};
use model::Ready;
use plasticity::{Outcome, State, Updated};
use tensor::VectorAnswer;

// Nobody, or these limits on the stress by this law.
#[derive(Clone, Copy)]
pub enum Judge {
    Nobody,
    By(MaximumStressFailure, CorotatedLinearElasticity),
}

// The outcome, and whether the record failed and was not refused.
#[derive(Drop)]
pub struct Stepped {
    pub outcome: Outcome,
    pub failed: bool,
}

// A refused stress is handed on.
fn verdict_on(l: MaximumStressFailure, stresses: VectorAnswer) -> Verdict
    ensures { result ≡ cond (eqb stresses.refusal 0) (verdict_of l stresses.vector) (verdict.Refused stresses.refusal) }
{
    if stresses.refusal == 0 {
        let v = stresses.vector;
        l.particle_failed(v)
    } else {
        Verdict::Refused(stresses.refusal)
    }
}

// The verdict on sigma and elastic hardening as the law leaves them, with the phase as it came.
fn verdict_after(
    l: MaximumStressFailure,
    e: CorotatedLinearElasticity,
    phase: f64,
    left: State,
) -> Verdict
    ensures { result ≡ verdict_after l e phase left }
{
    let sigma = left.sigma;
    verdict_on(
        l,
        e.principal_stresses(phase, left.scalars.elastic_hardening, sigma),
    )
}

// Whether the law refused: then there is no verdict.
fn refused(o: Outcome) -> bool
    ensures { (v : Verdict) → unless_refused o v ≡ cond result verdict.No v }
{
    match o {
        Outcome::Untouched => false,
        Outcome::Stored(_) => false,
        Outcome::Refused(_) => true,
    }
}

// By nobody it is no, and a refused law skips it. Only a judge reads the phase.
fn verdict(j: Judge, r: &[u64], d: Updated) -> Verdict
    ensures { result ≡ verdict_by j (state_at r.now).scalars.phase d }
{
    match j {
        Judge::Nobody => Verdict::No,
        Judge::By(l, e) => {
            let o = d.outcome;
            let left = d.state;
            if refused(o) {
                Verdict::No
            } else {
                verdict_after(l, e, record::float(r, record::PHASE), left)
            }
        }
    }
}

// A refused stress is the record's refusal, so that what the law left isn't written.
fn outcome_by(v: Verdict, o: Outcome) -> Outcome
    ensures { result ≡ outcome_by v o }
{
    match v {
        Verdict::No => o,
        Verdict::Yes => o,
        Verdict::Refused(n) => Outcome::Refused(n),
    }
}

// And a yes fails the record.
fn failed_by(v: Verdict) -> bool
    ensures { result ≡ failed_by v }
{
    match v {
        Verdict::No => false,
        Verdict::Yes => true,
        Verdict::Refused(_) => false,
    }
}

// What the law left is written, but where the stress is refused; a yes sets phase 0.0.
fn mark(q: Ready, x: Left, v: Verdict, r: &mut [u64]) -> Stepped
    requires { (length r.old ≡ floats) × Beside x.updated.outcome r.old x.updated.state x.determinant }
    ensures outcome { result.outcome ≡ (marked v r.old (ready_kept_by q x.updated r.old)).outcome }
    ensures failed { result.failed ≡ (marked v r.old (ready_kept_by q x.updated r.old)).failed }
    ensures record { r.new ≡ (marked v r.old (ready_kept_by q x.updated r.old)).after }
{
    let d = x.updated;
    let s = d.state;
    let left = d.outcome;
    let o = outcome_by(v, left);
    stored::keep(q, o, s, x.determinant, r);
    if failed_by(v) {
        r[record::PHASE] = numbers::bits_of(0.0);
        Stepped {
            outcome: o,
            failed: true,
        }
    } else {
        Stepped {
            outcome: o,
            failed: false,
        }
    }
}

// One finite record, with a finite judge: the law first, then the verdict on what it leaves.
pub fn finite_step(q: Ready, j: Judge, r: &mut [u64]) -> Stepped
    requires { (length r.old ≡ floats) × (record_finite r.old ≡ true) × (ready_finite q ≡ true) }
    ensures outcome { result.outcome ≡ (ready_marked q j r.old).outcome }
    ensures failed { result.failed ≡ (ready_marked q j r.old).failed }
    ensures record { r.new ≡ (ready_marked q j r.old).after }
{
    let x = record_law::updated_record(q, &r[..]);
    let d = x.updated;
    let v = verdict(j, &r[..], d);
    mark(q, x, v, r)
}

// Limits and corotated law are inputs of each record.
pub fn judge_finite(j: Judge) -> bool
    ensures { result ≡ finite_by j }
{
    match j {
        Judge::Nobody => true,
        Judge::By(l, e) => l.limits_finite() & e.law_finite(),
    }
}

// One record. A float that isn't finite is the first refusal of every law, so all its patterns are tested at once.
pub fn take_step(q: Ready, j: Judge, r: &mut [u64]) -> Stepped
    requires { (length r.old ≡ floats) × (ready_finite q ≡ true) }
    ensures outcome { result.outcome ≡ (ready_law q j r.old).outcome }
    ensures failed { result.failed ≡ (ready_law q j r.old).failed }
    ensures record { r.new ≡ (ready_law q j r.old).after }
{
    if judge_finite(j) & record::all_finite(&r[..]) {
        return finite_step(q, j, r);
    }
    Stepped {
        outcome: Outcome::Refused(answers::NOT_FINITE),
        failed: false,
    }
}
