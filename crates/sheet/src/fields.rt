// The parameters of a model, some of them flags.
ghost use Rattle.std.specs.Prelude.{◌≡◌};
ghost use Rattle.model.specs.Kinds.{allowed, kinds_of};
ghost use Rattle.sheet.specs.Sheet.{parameter_at, parameters_at, as_parameters};

use crate::words::word_at;
use crate::{Parameters, Word};
use model::PARAMETERS;

fn allows(flag: bool, bits: u64) -> bool
    ensures { result ≡ allowed flag bits }
{
    if flag { model::is_flag(bits) } else { true }
}

fn parameter_at(s: &[u8], flag: bool, at: usize) -> Word
    ensures { result ≡ parameter_at flag s.now at }
{
    let w = word_at(s, at);
    match w {
        Word::Refused(n) => Word::Refused(n),
        Word::Read(bits, next) => {
            if allows(flag, bits) {
                Word::Read(bits, next)
            } else {
                Word::Refused(answers::UNKNOWN)
            }
        }
    }
}

#[tactic(auto, using(model::proofs::KindLaws::kinds_most))]
pub fn parameters(s: &[u8], model: u64, at: usize) -> Parameters
    ensures { result ≡ as_parameters (parameters_at (kinds_of model) s.now at) }
{
    let n = model::parameters_of(model);
    let mut bits = [0u64; PARAMETERS];
    let mut next = at;
    for (i, place) in bits[..n].iter_mut().enumerate() {
        match parameter_at(s, model::is_flag_of(model, i), next) {
            Word::Refused(refusal) => {
                return Parameters {
                    refusal,
                    bits: [0u64; PARAMETERS],
                    at: 0,
                };
            }
            Word::Read(b, after) => {
                *place = b;
                next = after;
            }
        }
    }
    Parameters {
        refusal: 0,
        bits,
        at: next,
    }
}
