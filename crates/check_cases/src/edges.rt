// The edges. An entry is a byte, 0 for factors and 1 for principal values, a byte, 1 where the check's words accept it and else 0, and 30 words
// of 8 bytes, low byte first. A byte 255 ends the list.
use crate::{held, say};
use std::fs;
use std::io::Read;

const WORDS: usize = 30;

const ENTRY: usize = 2 + WORDS * 8;

#[derive(Clone, Copy)]
enum Kind {
    Factors,
    Principals,
}

#[derive(Clone, Copy)]
struct Entry {
    kind: Kind,
    // what the check's words say
    accepted: bool,
    words: [u64; WORDS],
}

// The next entry, where the list has one; a read that fails ends the list.
fn next<F: Read>(file: &mut F) -> Option<Entry> {
    let mut room = [0u8; ENTRY];
    let Ok(bytes) = lines::read_whole(file, &mut room) else {
        return None;
    };
    if bytes.len() < ENTRY {
        return None;
    }
    let mut words = [0u64; WORDS];
    for (word, bytes) in words.iter_mut().zip(room[2..].as_chunks::<8>().0) {
        *word = u64::from_le_bytes(*bytes);
    }
    let kind = if room[0] == 0 {
        Kind::Factors
    } else {
        Kind::Principals
    };
    Some(Entry {
        kind,
        accepted: room[1] == 1,
        words,
    })
}

// Whether the check accepts it.
fn accepted(entry: &Entry) -> bool {
    match entry.kind {
        Kind::Factors => held::factors_held(&entry.words),
        Kind::Principals => held::principals_held(&entry.words),
    }
}

#[derive(Clone, Copy, Default)]
struct Seen {
    asked: u64,
    accepted: u64,
    differ: u64,
}

impl Seen {
    fn count(&mut self, accepted: bool, agrees: bool) {
        self.asked = self.asked.wrapping_add(1);
        self.accepted = self.accepted.wrapping_add(u64::from(accepted));
        self.differ = self.differ.wrapping_add(u64::from(!agrees));
    }
}

fn tell(rt: &HostRuntime, what: &str, seen: Seen) {
    say(rt, what);
    say(rt, ": edges ");
    say(rt, seen.asked);
    say(rt, ", to be accepted ");
    say(rt, seen.accepted);
    say(rt, ", differ ");
    say(rt, seen.differ);
    say(rt, "\n");
}

// The first entry of which the check says another thing than its words is named.
pub fn run(rt: &HostRuntime) {
    let mut file = match fs::open(rt, "list") {
        Ok(file) => file,
        Err(error) => {
            lines::fail(rt, "list", error);
            return;
        }
    };
    let mut of_factors = Seen::default();
    let mut of_principals = Seen::default();
    let mut named = false;
    for n in 0..100_000u64 {
        let Some(entry) = next(&mut file) else {
            break;
        };
        let accepted = accepted(&entry);
        let agrees = accepted == entry.accepted;
        if !agrees && !named {
            say(rt, "entry ");
            say(rt, n);
            say(
                rt,
                if accepted {
                    " is accepted\n"
                } else {
                    " is refused\n"
                },
            );
            named = true;
        }
        match entry.kind {
            Kind::Factors => of_factors.count(entry.accepted, agrees),
            Kind::Principals => of_principals.count(entry.accepted, agrees),
        }
    }
    tell(rt, "factors", of_factors);
    tell(rt, "principal values", of_principals);
}
