// A sheet written: its model, parameters and records, all as bits, become bytes in a lent room (RULES, section 7).
// It refuses before it writes, and past the sheet's end the room keeps its bytes.
#![tactic(auto)]

mod bytes;
mod refusing;

ghost use Rattle.std.specs.Prelude.{◌≡◌, length};
ghost use Rattle.writer.specs.declared.Written.TheVariants.{Length};
ghost use Rattle.writer.specs.Writer.{put, sheet_of, refusal_of, written_of, room_of};

pub use bytes::write_words;
use sheet::BYTES;

// The sheet's length, or why none was written.
#[derive(Drop)]
pub enum Written {
    Length(usize),
    Refused(u8),
}

// The sheet into a room that has place for it.
fn fill(model: u64, parameters: &[u64], records: &[u64], room: &mut [u8]) -> usize
    requires { refusal_of model parameters.now records.now (length room.old) ≡ 0 }
    ensures value { result ≡ length (sheet_of model parameters.now records.now) }
    ensures room_after { room.new ≡ put room.old 0 (sheet_of model parameters.now records.now) }
{
    let a = bytes::write_number(room, 0, model);
    bytes::write_words(room, a, parameters);
    let b = a + parameters.len() * BYTES;
    let count = records.len() / record::FLOATS;
    let c = bytes::write_number(room, b, count as u64);
    bytes::write_records(room, c, model, records);
    c + count * sheet::floats_of(model) * BYTES
}

// The same, with its length as the answer.
fn filled(model: u64, parameters: &[u64], records: &[u64], room: &mut [u8]) -> Written
    requires { refusal_of model parameters.now records.now (length room.old) ≡ 0 }
    ensures value { result ≡ Length (length (sheet_of model parameters.now records.now)) }
    ensures room_after { room.new ≡ put room.old 0 (sheet_of model parameters.now records.now) }
{
    Written::Length(fill(model, parameters, records, room))
}

// 8, 6, 7 and 9, in this order; a NaN passes as it is.
pub fn write(model: u64, parameters: &[u64], records: &[u64], room: &mut [u8]) -> Written
    ensures value { result ≡ written_of model parameters.now records.now (length room.old) }
    ensures room_after { room.new ≡ room_of model parameters.now records.now room.old }
{
    let refusal = refusing::refusal(model, parameters, records, room.len());
    if refusal != 0 {
        return Written::Refused(refusal);
    }
    filled(model, parameters, records, room)
}
