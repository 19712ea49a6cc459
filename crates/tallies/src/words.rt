// Tallies as words, five a zone: into an array by value, and back.
ghost use Rattle.std.specs.Prelude.{◌≡◌, ◌++◌, ◌+◌, ◌*◌, ◌/◌, ◌≤◌, eqb, length, take, drop};
ghost use Rattle.tallies.specs.Tallies.{spare};
ghost use Rattle.tallies.specs.Words.{fields, words_of, tally_at, tallies_in, words_in};

use crate::tally;
use crate::tally::Tally;

pub const FIELDS: usize = 5;

// Whether so many words are a whole number of tallies.
pub fn whole_words(words: usize) -> bool
    ensures { result ≡ eqb (words / fields * fields) words }
{
    words / FIELDS * FIELDS == words
}

fn read_tally(ws: &[u64], z: usize) -> Tally
    requires { z * fields + fields ≤ length ws.now }
    ensures { result ≡ tally_at ws.now z }
{
    let k = z * FIELDS;
    Tally {
        particles: ws[k],
        untouched: ws[k + 1],
        stored: ws[k + 2],
        refused: ws[k + 3],
        failed: ws[k + 4],
    }
}

fn write_five(five: &mut [u64], t: Tally)
    requires { length five.old ≡ fields }
    ensures { five.new ≡ words_of t }
{
    five[0] = t.particles;
    five[1] = t.untouched;
    five[2] = t.stored;
    five[3] = t.refused;
    five[4] = t.failed;
}

// Zone z's words are written.
fn write_tally(ws: &mut [u64], z: usize, t: Tally)
    requires { z * fields + fields ≤ length ws.old }
    ensures { ws.new ≡ take (z * fields) ws.old ++ (words_of t ++ drop fields (drop (z * fields) ws.old)) }
{
    let a = z * FIELDS;
    let b = a + FIELDS;
    write_five(&mut ws[a..b], t);
}

// The first n, and none after them.
#[tactic(auto, using(crate::proofs::WordLaws::tallies_step, crate::proofs::ByZone::spare_length), unfolding(crate::specs::Words::tallies_in))]
pub fn read_tallies(ws: &[u64], n: usize) -> [Tally; 256]
    requires { (n ≤ 256) × (n * fields ≤ length ws.now) }
    ensures { result ≡ tallies_in ws.now n ++ drop n spare }
{
    let mut r = tally::no_tallies();
    for z in 0..n {
        r[z] = read_tally(ws, z);
    }
    r
}

#[tactic(auto, using(crate::proofs::WordLaws::words_step), unfolding(crate::specs::Words::words_in))]
pub fn write_tallies(ws: &mut [u64], ts: [Tally; 256], n: usize)
    requires { (n ≤ 256) × (length ws.old ≡ n * fields) }
    ensures { ws.new ≡ words_in ts n }
{
    for z in 0..n {
        write_tally(ws, z, ts[z]);
    }
}
