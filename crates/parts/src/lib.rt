// A sheet that comes in parts, cut anywhere (RULES, section 7): a record is read and worked when its last byte comes. Between calls at
// most one unfinished record is held, and the bytes before the records in the same room.
#![tactic(auto)]

ghost use Rattle.std.specs.Prelude.{◌≡◌, true, ◌&&◌, ◌*◌, ◌<◌, eqb, length, take};
ghost use Rattle.record.specs.Layout.{floats};
ghost use Rattle.sheet.specs.Sheet.{most, preamble_of, as_header};
ghost use Rattle.parts.specs.Parts.{works, room, named, worked_by, answer_of, records_with, answers_with, headed, recorded, records_by, answers_by, next, after, begun, stopped, Lent, parted, told, part_answer, missing, ended, end_answer};

use model::PARAMETERS;
use sheet::Header;

// How far a sheet has come. `refusal`: what every further call is answered by: 0 while more may come, a fault's number, or 15 after the
// end. `header`: what stands before the records, refused by 4 while it is unfinished. `complete`: how many records were worked. `kept`:
// how many bytes are held.
#[derive(Clone, Copy)]
pub struct Arrival {
    pub refusal: u8,
    pub header: Header,
    pub complete: usize,
    pub kept: usize,
    pub held: [u8; ROOM],
}

// What a call answers: its refusal or 0, how many records are complete, and how far the sheet has come.
#[derive(Drop)]
pub struct Told {
    pub refusal: u8,
    pub complete: usize,
    pub arrival: Arrival,
}

// The bytes of the longest record.
pub const ROOM: usize = record::FLOATS * sheet::BYTES;

// Before the first byte.
pub fn begin() -> Arrival
    ensures { result ≡ begun }
{
    let header = Header {
        refusal: answers::ENDS_EARLY,
        model: 0,
        parameters: [0u64; PARAMETERS],
        count: 0,
        at: 0,
    };
    Arrival {
        refusal: 0,
        header,
        complete: 0,
        kept: 0,
        held: [0u8; ROOM],
    }
}

// What stands before the records, in the bytes that are kept.
fn preamble(held: &[u8], kept: usize) -> Header
    ensures { result ≡ as_header (preamble_of (take kept held.now)) }
{
    if kept <= held.len() {
        return sheet::preamble_at(&held[..kept], 0);
    }
    sheet::preamble_at(held, 0)
}

// A byte more before the records.
fn preamble_byte(a: Arrival, b: u8) -> Arrival
    requires { a.kept < room }
    ensures { result ≡ headed a b }
{
    let at = a.kept;
    let mut held = a.held;
    held[at] = b;
    let kept = at + 1;
    let header = preamble(&held[..], kept);
    if header.refusal == answers::ENDS_EARLY {
        return Arrival {
            refusal: 0,
            header,
            complete: 0,
            kept,
            held,
        };
    }
    Arrival {
        refusal: header.refusal,
        header,
        complete: 0,
        kept: 0,
        held,
    }
}

// The same, with a number that answers every further call.
fn stop(a: Arrival, n: u8) -> Arrival
    ensures { result ≡ stopped a n }
{
    let header = a.header;
    let held = a.held;
    Arrival {
        refusal: n,
        header,
        complete: a.complete,
        kept: a.kept,
        held,
    }
}

// Whether a header names one of the eight models, and each of its flags is one. Those that the calls give do.
pub fn names_model(h: Header) -> bool
    ensures { result ≡ named h }
{
    let parameters = h.parameters;
    model::known(h.model, &parameters)
}

// A record's bytes are read into its place, and it is worked.
fn work_one(h: Header, bytes: &[u8], r: &mut [u64], out: &mut [u64])
    requires { (length r.old ≡ floats) × (length out.old ≡ 2) × (named h ≡ true) }
    ensures r_after { r.new ≡ (worked_by h bytes.now r.old).after }
    ensures out_after { out.new ≡ answer_of (worked_by h bytes.now r.old).outcome }
{
    let parameters = h.parameters;
    let m = model::model_of(h.model, &parameters);
    let _ = sheet::record_at(bytes, h.model, 0, r);
    let _ = particles::pass(m, r, out);
}

// Record k is complete.
fn work(h: Header, k: usize, bytes: &[u8], records: &mut [u64], answers: &mut [u64])
    requires { (k < most) × Lent records.old answers.old × (named h ≡ true) }
    ensures records_after { records.new ≡ records_with h k bytes.now records.old }
    ensures answers_after { answers.new ≡ answers_with h k bytes.now records.old answers.old }
{
    let a = k * record::FLOATS;
    let b = a + record::FLOATS;
    let c = k * 2;
    let d = c + 2;
    work_one(h, bytes, &mut records[a..b], &mut answers[c..d]);
}

// A byte more in the records. No call of ours leads to a header that names no model.
fn record_byte(a: Arrival, b: u8, records: &mut [u64], answers: &mut [u64]) -> Arrival
    requires { (a.kept < room) × Lent records.old answers.old }
    ensures value { result ≡ recorded a b }
    ensures records_after { records.new ≡ records_by a b records.old }
    ensures answers_after { answers.new ≡ answers_by a b records.old answers.old }
{
    let header = a.header;
    let k = a.complete;
    if (k < header.count) & (k < sheet::MOST) {
        let at = a.kept;
        let mut held = a.held;
        held[at] = b;
        let last = sheet::floats_of(header.model) * sheet::BYTES - 1;
        if at < last {
            return Arrival {
                refusal: 0,
                header,
                complete: k,
                kept: at + 1,
                held,
            };
        }
        if names_model(header) {
            work(header, k, &held[..], records, answers);
            return Arrival {
                refusal: 0,
                header,
                complete: k + 1,
                kept: 0,
                held,
            };
        }
        return stop(a, answers::UNKNOWN);
    }
    stop(a, answers::TOO_MANY)
}

// A byte more. No call of ours leads to a full room.
fn byte(a: Arrival, b: u8, records: &mut [u64], answers: &mut [u64]) -> Arrival
    requires { Lent records.old answers.old }
    ensures value { result ≡ (next (works a records.old answers.old) b).arrival }
    ensures records_after { records.new ≡ (next (works a records.old answers.old) b).records }
    ensures answers_after { answers.new ≡ (next (works a records.old answers.old) b).answers }
{
    if a.refusal != 0 {
        return a;
    }
    if ROOM <= a.kept {
        return stop(a, answers::TOO_MANY);
    }
    if a.header.refusal == 0 {
        return record_byte(a, b, records, answers);
    }
    preamble_byte(a, b)
}

// Lists for exactly 200 particles.
fn are_lent(words: usize, places: usize) -> bool
    ensures { result ≡ (eqb words (most * floats) && eqb places (most * 2)) }
{
    (words == sheet::MOST_WORDS) & (places == sheet::MOST_ANSWERS)
}

// All bytes of a part.
fn take(a: Arrival, bytes: &[u8], records: &mut [u64], answers: &mut [u64]) -> Arrival
    requires { Lent records.old answers.old }
    ensures value { result ≡ (after (works a records.old answers.old) bytes.now).arrival }
    ensures records_after { records.new ≡ (after (works a records.old answers.old) bytes.now).records }
    ensures answers_after { answers.new ≡ (after (works a records.old answers.old) bytes.now).answers }
{
    let mut q = a;
    for b in bytes {
        q = byte(q, *b, records, answers);
    }
    q
}

fn tell(refusal: u8, arrival: Arrival) -> Told
    ensures { result ≡ told refusal arrival }
{
    Told {
        refusal,
        complete: arrival.complete,
        arrival,
    }
}

// A part: the records that it completes are worked in the lent lists. Lists that aren't for exactly 200 particles are refused by 8, which
// is no fault; after a fault its number is told again, after the end 15, and nothing changes.
pub fn part(a: Arrival, bytes: &[u8], records: &mut [u64], answers: &mut [u64]) -> Told
    ensures value { result ≡ part_answer (works a records.old answers.old) bytes.now }
    ensures records_after { records.new ≡ (parted (works a records.old answers.old) bytes.now).records }
    ensures answers_after { answers.new ≡ (parted (works a records.old answers.old) bytes.now).answers }
{
    if are_lent(records.len(), answers.len()) {
        let q = take(a, bytes, records, answers);
        return tell(q.refusal, q);
    }
    tell(answers::LENGTH, a)
}

// Something is missing: of what stands before the records, or of them.
fn lacks(a: Arrival) -> bool
    ensures { result ≡ missing a }
{
    let header = a.header;
    if header.refusal == 0 {
        a.complete < header.count
    } else {
        true
    }
}

fn close(a: Arrival) -> Told
    ensures { result ≡ ended a }
{
    if a.refusal != 0 {
        return tell(a.refusal, a);
    }
    if lacks(a) {
        return tell(answers::ENDS_EARLY, stop(a, answers::ENDS_EARLY));
    }
    tell(0, stop(a, answers::AFTER_END))
}

// The end is declared: a shortage is told only here. The lists are lent as to a part.
pub fn end(a: Arrival, records: &[u64], answers: &[u64]) -> Told
    ensures { result ≡ end_answer a records.now answers.now }
{
    if are_lent(records.len(), answers.len()) {
        return close(a);
    }
    tell(answers::LENGTH, a)
}
