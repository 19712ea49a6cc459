// The records, from the sheet's floats to the list's.
ghost use Rattle.std.specs.Prelude.{◌≡◌, ◌+◌, ◌*◌, ◌≤◌, length, drop};
ghost use Rattle.record.specs.Layout.{floats};
ghost use Rattle.sheet.specs.Records.{sheet_floats, completed};
ghost use Rattle.sheet.specs.Sheet.{words_of};

use crate::words::fill;

// How many floats a record has in a sheet of a model: 0 to 3 leave the determinant out.
pub fn floats_of(model: u64) -> usize
    ensures { result ≡ sheet_floats model }
{
    if model::whole(model) {
        record::FLOATS
    } else {
        record::BARE
    }
}

// A record that is there, into a room of its size.
pub fn fill_record(s: &[u8], model: u64, at: usize, room: &mut [u64])
    requires { (at + sheet_floats model * 8 ≤ length s.now) × (length room.old ≡ floats) }
    ensures { room.new ≡ completed model (words_of (sheet_floats model) (drop at s.now)) }
{
    fill(s, at, floats_of(model), room);
    if model::whole(model) {
        return;
    }
    room[record::DETERMINANT] = record::determinant(&room[..]);
}
