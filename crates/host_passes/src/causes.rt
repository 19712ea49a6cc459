// Why a record moves, or why it doesn't.
ghost use Rattle.std.specs.Prelude.{◌≡◌, [], ◌∷◌, length};
ghost use Rattle.host_lists.specs.Called.{called};
ghost use Rattle.host_passes.specs.Causes.{cause_in, why_by};

use one_record::copy;
use record_why::Cause;

fn put_cause(model: u64, w: Cause, room: &mut [u64]) -> u8
    requires { length room.old ≡ 11 }
    ensures { called result (room.new ∷ []) ≡ cause_in model w room.old }
{
    let n = record_why::call_refusal(w);
    if n != 0 {
        return n;
    }
    let words = record_why::words(model, w);
    copy(&words, room);
    0
}

pub fn pasoletu_why(model: u64, parameters: &[u64], r: &[u64], reason: &mut [u64]) -> u8
    ensures { called result (reason.new ∷ []) ≡ why_by model parameters.now r.now reason.old }
{
    if reason.len() != 11 {
        return answers::LENGTH;
    }
    let w = record_why::why(model, parameters, r);
    put_cause(model, w, reason)
}
