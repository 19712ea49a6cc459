// Bytes written at a place of the room; the others keep theirs.
ghost use Rattle.std.specs.Prelude.{◌≡◌, ◌+◌, ◌*◌, ◌^◌, ◌≤◌, ◌<◌, length};
ghost use Rattle.sheet.specs.Records.{sheet_floats, sheet_words};
ghost use Rattle.sheet.specs.Spelling.{spell_number, spell_bytes, spell_words};
ghost use Rattle.writer.specs.Writer.{put, count_of};

use sheet::BYTES;

// A number of one or two groups, and the place after it.
pub fn write_number(room: &mut [u8], at: usize, n: u64) -> usize
    requires { (at + length (spell_number n) ≤ length room.old) × (n < 2 ^ 14) }
    ensures { (result ≡ at + length (spell_number n)) × (room.new ≡ put room.old at (spell_number n)) }
{
    if n < 128 {
        room[at] = n as u8;
        return at + 1;
    }
    room[at] = (n % 128 + 128) as u8;
    room[at + 1] = (n / 128) as u8;
    at + 2
}

// A float's bits: 8 bytes, low byte first.
#[tactic(auto, using(crate::proofs::Puts::put_word))]
fn write_word(room: &mut [u8], at: usize, w: u64)
    requires { at + 8 ≤ length room.old }
    ensures { room.new ≡ put room.old at (spell_bytes 8 w) }
{
    room[at..at + BYTES].copy_from_slice(&w.to_le_bytes());
}

// A list's floats, one after the other.
#[tactic(auto, using(crate::proofs::Puts::put_next), unfolding(sheet::specs::Spelling::spell_words))]
pub fn write_words(room: &mut [u8], at: usize, words: &[u64])
    requires { at + length words.now * 8 ≤ length room.old }
    ensures { room.new ≡ put room.old at (spell_words words.now) }
{
    for (i, w) in words.iter().enumerate() {
        write_word(room, at + i * BYTES, *w);
    }
}

// A list's records, each as the model's sheets have it.
#[tactic(auto, using(sheet::proofs::RecordLaws::floats_most), unfolding(sheet::specs::Records::each, sheet::specs::Spelling::spell_words))]
pub fn write_records(room: &mut [u8], at: usize, model: u64, records: &[u64])
    requires { at + count_of records.now * sheet_floats model * 8 ≤ length room.old }
    ensures { room.new ≡ put room.old at (spell_words (sheet_words model (count_of records.now) records.now)) }
{
    let n = sheet::floats_of(model);
    let bytes = n * BYTES;
    let (whole, _) = records.as_chunks::<{ record::FLOATS }>();
    for (i, r) in whole.iter().enumerate() {
        write_words(room, at + i * bytes, &r[..n]);
    }
}
