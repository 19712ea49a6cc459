// A float's bits: 8 bytes, low byte first.
ghost use Rattle.std.specs.Prelude.{◌≡◌, ◌++◌, ◌+◌, ◌*◌, ◌≤◌, length, take, drop};
ghost use Rattle.sheet.specs.Sheet.{word_of, word_at, words_of};

use crate::{BYTES, Word};

// Eight bytes that are there, low first.
#[tactic(auto, using(crate::proofs::Cases::eight_bytes))]
fn word(s: &[u8], at: usize) -> u64
    requires { at + 8 ≤ length s.now }
    ensures { result ≡ word_of (take 8 (drop at s.now)) }
{
    u64::from_le_bytes(s[at..at + BYTES].try_into().unwrap())
}

// The bits of the float that stands at a place, and the place after it: 4 where fewer than eight bytes are left.
pub fn word_at(s: &[u8], at: usize) -> Word
    ensures { result ≡ word_at s.now at }
{
    if s.len() < at {
        return Word::Refused(answers::ENDS_EARLY);
    }
    if s.len() - at < 8 {
        return Word::Refused(answers::ENDS_EARLY);
    }
    Word::Read(word(s, at), at + 8)
}

// n floats that are there, into the first n places of the room.
#[tactic(auto, using(crate::proofs::Steps::words_more), unfolding(crate::specs::Sheet::words_of))]
pub fn fill(s: &[u8], at: usize, n: usize, room: &mut [u64])
    requires { (at + n * 8 ≤ length s.now) × (n ≤ length room.old) }
    ensures { room.new ≡ words_of n (drop at s.now) ++ drop n room.old }
{
    for (i, place) in room[..n].iter_mut().enumerate() {
        *place = word(s, at + i * BYTES);
    }
}
