// A reader keeps the lent sheet and a reading place in it (RULES, section 7). Its functions are thin: each takes it
// apart and calls the crate `sheet` on the slice and the place. A sheet is read through it: the header at the start, then each record
// at the place that the one before it left.
#![tactic(auto)]

ghost use Rattle.std.specs.Prelude.{◌≡◌, ◌++◌, ◌+◌, ◌*◌, ◌≤◌, length, drop};
ghost use Rattle.record.specs.Layout.{floats};
ghost use Rattle.model.specs.Kinds.{last};
ghost use Rattle.sheet.specs.Records.{sheet_floats, list_words};
ghost use Rattle.sheet.specs.Sheet.{most, header_from, header_of, record_at, room_at, words_of, read_of, room_of};
ghost use Rattle.reader.specs.Places.{moved_to};

use sheet::{Header, Place};

#[derive(Drop)]
pub struct Reader<'a> {
    pub sheet: &'a [u8],
    pub at: usize,
}

// At the start of a sheet.
pub fn new<'a>(sheet: &'a [u8]) -> Reader<'a>
    ensures { (result.sheet ≡ sheet.entry) × (result.at ≡ 0) }
{
    Reader { sheet, at: 0 }
}

// At another place of the same sheet.
pub fn advanced<'a>(r: Reader<'a>, next: usize) -> Reader<'a>
    ensures { (result.sheet ≡ r.entry.sheet) × (result.at ≡ next) }
{
    Reader {
        sheet: r.sheet,
        at: next,
    }
}

// The header that stands at the place.
pub fn read_header<'a>(r: Reader<'a>) -> Header
    ensures { result ≡ header_from r.entry.sheet.now r.entry.at }
{
    sheet::header_at(r.sheet, r.at)
}

// The record of a model's sheet that stands at the place, into a room of a list's record, and the place of the next.
pub fn read_record<'a, 'b>(r: Reader<'a>, model: u64, room: &'b mut [u64]) -> Place
    ensures { (result ≡ record_at model r.entry.sheet.now r.entry.at (length room.old)) × (room.new ≡ room_at model r.entry.sheet.now r.entry.at room.old) }
{
    sheet::record_at(r.sheet, model, r.at, room)
}

// The header of a sheet: a reader made, and read once.
pub fn header(s: &[u8]) -> Header
    ensures { result ≡ header_of s.now }
{
    read_header(new(s))
}

// The record at a place of a sheet: a reader made, advanced to it, and read once.
fn record_from(s: &[u8], at: usize, model: u64, room: &mut [u64]) -> Place
    ensures { (result ≡ record_at model s.now at (length room.old)) × (room.new ≡ room_at model s.now at room.old) }
{
    read_record(advanced(new(s), at), model, room)
}

// The place after a record; the place that it was read at, where it was refused.
fn moved(p: Place, at: usize) -> usize
    ensures { result ≡ moved_to p at }
{
    match p {
        Place::Next(next) => next,
        Place::Refused(_) => at,
    }
}

// So many records that are there, from a place on, into the front of the room; each is read where the one before it ended.
#[tactic(auto, unfolding(sheet::specs::Records::each))]
fn records(s: &[u8], model: u64, at: usize, count: usize, room: &mut [u64])
    requires { (model ≤ last) × (at + count * sheet_floats model * 8 ≤ length s.now) × (count * floats ≤ length room.old) }
    ensures { room.new ≡ list_words model count (words_of (count * sheet_floats model) (drop at s.now)) ++ drop (count * floats) room.old }
{
    let mut next = at;
    for i in 0..count {
        let a = i * record::FLOATS;
        let p = record_from(s, next, model, &mut room[a..a + record::FLOATS]);
        next = moved(p, next);
    }
}

// A sheet into a room. The records go into its first places, each with its determinant; the other places, and all of them beside a
// refusal, keep their bits.
pub fn read(s: &[u8], room: &mut [u64]) -> Header
    ensures { (result ≡ read_of s.now (length room.old)) × (room.new ≡ room_of s.now room.old) }
{
    if room.len() % record::FLOATS != 0 {
        return sheet::refused(answers::LENGTH);
    }
    let h = header(s);
    if h.refusal != 0 {
        return h;
    }
    let n = h.count * record::FLOATS;
    if room.len() < n {
        return sheet::refused(answers::LENGTH);
    }
    records(s, h.model, h.at, h.count, room);
    h
}
