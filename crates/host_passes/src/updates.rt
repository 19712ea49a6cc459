// The update of one record by a plastic law, of a flat record too.
ghost use Rattle.std.specs.Prelude.{◌≡◌, [], ◌∷◌, length};
ghost use Rattle.record.specs.Layout.{floats};
ghost use Rattle.one_record.specs.RecordLaw.{record_law};
ghost use Rattle.flat_particles.specs.Layout as flat;
ghost use Rattle.flat_particles.specs.Law.{flat_law};
ghost use Rattle.host_lists.specs.Called.{called};
ghost use Rattle.host_passes.specs.Update.{outcome_code, outcome_answer, update_by};

use one_record::copy;
use plasticity::Outcome;

// A refusal of the law is the call's; else the two answers are written.
fn put_outcome(o: Outcome, answer: &mut [u64]) -> u8
    requires { length answer.old ≡ 2 }
    ensures value { result ≡ outcome_code o }
    ensures answer_after { answer.new ≡ outcome_answer o answer.old }
{
    match o {
        Outcome::Untouched => {
            copy(&[0u64, 0u64], answer);
            0
        }
        Outcome::Stored(a) => {
            copy(&[1u64, numbers::bits_of(a)], answer);
            0
        }
        Outcome::Refused(n) => n,
    }
}

pub fn pasoletu_update(model: u64, parameters: &[u64], r: &mut [u64], answer: &mut [u64]) -> u8
    ensures { called result (r.new ∷ answer.new ∷ []) ≡ update_by floats record_law model parameters.now r.old answer.old }
{
    if model::fit(model, parameters) & (r.len() == record::FLOATS) & (answer.len() == 2) {
        if model::known(model, parameters) {
            let o = one_record::update_record(model::model_of(model, parameters), r);
            return put_outcome(o, answer);
        }
        return answers::UNKNOWN;
    }
    answers::LENGTH
}

pub fn pasoletu_flat_update(model: u64, parameters: &[u64], r: &mut [u64], answer: &mut [u64]) -> u8
    ensures { called result (r.new ∷ answer.new ∷ []) ≡ update_by flat.floats flat_law model parameters.now r.old answer.old }
{
    if model::fit(model, parameters) & (r.len() == flat_particles::FLOATS) & (answer.len() == 2) {
        if model::known(model, parameters) {
            let o = flat_particles::update_record(model::model_of(model, parameters), r);
            return put_outcome(o, answer);
        }
        return answers::UNKNOWN;
    }
    answers::LENGTH
}
