// The law on a finite record: 11 comes before it, 3 of the new determinant after it.
ghost use Rattle.std.specs.Prelude.{◌≡◌, true, cond, List, ℕ, length, Float};
ghost use Rattle.answers.specs.Refusals.{not_finite, wrong_determinant};
ghost use Rattle.plasticity.specs.State.{state_finite, refused};
ghost use Rattle.plasticity.specs.declared.Outcome.TheVariants.{Stored};
ghost use Rattle.record.specs.Layout.{floats, record_finite};
ghost use Rattle.model.specs.Ready.{ready_finite, parameters_ready};
ghost use Rattle.one_record.specs.RecordLaw.{Beside};
ghost use Rattle.one_record.specs.ReadyRecord.{measured_at, ready_at};

use model::Ready;
use plasticity::{Outcome, State, Updated};

// What the law leaves: the update, and beside it the determinant of the F that it stores, 0 where it stores none.
#[derive(Drop)]
pub struct Left {
    pub updated: Updated,
    pub determinant: u64,
}

// Nothing is stored.
fn unstored(d: Updated) -> Left
    ensures { result ≡ record { updated = d; determinant = 0 } }
{
    Left {
        updated: d,
        determinant: 0,
    }
}

// An update that would store a determinant that isn't finite is refused by 3.
fn measured(d: Updated) -> Left
    requires { (a : Float) → d.outcome ≡ Stored a → state_finite d.state ≡ true }
    ensures updated { (r : List ℕ) → length r ≡ floats → record_finite r ≡ true → result.updated ≡ measured_at r d }
    ensures determinant { (r : List ℕ) → length r ≡ floats → Beside result.updated.outcome r result.updated.state result.determinant }
{
    let o = d.outcome;
    let s = d.state;
    let f = s.f;
    match o {
        Outcome::Untouched => unstored(d),
        Outcome::Stored(_) => {
            let w = record::determinant_with(f);
            if record::word_finite(w) {
                Left {
                    updated: d,
                    determinant: w,
                }
            } else {
                unstored(Updated {
                    state: s,
                    outcome: Outcome::Refused(answers::NO_NUMBER),
                })
            }
        }
        Outcome::Refused(_) => unstored(d),
    }
}

// 11, but where the parameters are refused by 1.
fn wrong(q: Ready, s: State) -> Updated
    ensures { result ≡ refused (cond (parameters_ready q) wrong_determinant not_finite) s }
{
    let n = if model::parameters_ready(q) {
        answers::WRONG_DETERMINANT
    } else {
        answers::NOT_FINITE
    };
    Updated {
        state: s,
        outcome: Outcome::Refused(n),
    }
}

// The law on a finite record, where its determinant is right.
pub fn updated_record(q: Ready, r: &[u64]) -> Left
    requires { (length r.now ≡ floats) × (record_finite r.now ≡ true) × (ready_finite q ≡ true) }
    ensures updated { result.updated ≡ ready_at q r.now }
    ensures determinant { Beside result.updated.outcome r.now result.updated.state result.determinant }
{
    let s = record::read_state(r);
    let f = s.f;
    if r[record::DETERMINANT] == record::determinant_with(f) {
        measured(model::update_ready(q, record::read_u(r), record::read_vt(r), s))
    } else {
        unstored(wrong(q, s))
    }
}
