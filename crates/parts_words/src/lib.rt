// A sheet in parts for hosts (RULES, section 7): how far it has come stands in a lent list of words, and any words answer for some state.
#![tactic(auto)]

ghost use Rattle.std.specs.Prelude.{◌≡◌, ◌&&◌, ◌*◌, eqb, length, take, drop};
ghost use Rattle.record.specs.Layout.{floats};
ghost use Rattle.model.specs.Kinds.{places};
ghost use Rattle.sheet.specs.Sheet.{most, words_of};
ghost use Rattle.sheet.specs.Spelling.{spell_words};
ghost use Rattle.parts.specs.Parts.{room};
ghost use Rattle.parts_words.specs.Words.{numbers, front, state_length, numbers_of, state_words, header_at, arrival_at};
ghost use Rattle.parts_words.specs.Calls.{standing_of, progress_length, progress_of, lists, begin_code, begin_state, part_code, part_lists, end_code, end_lists};

use model::PARAMETERS;
use one_record::copy;
use parts::{Arrival, ROOM, Told};
use sheet::Header;

// The refusals, the model, and the numbers of records, places and bytes come first, then the parameters, then the bytes held, eight a word.
const NUMBERS: usize = 7;

const FRONT: usize = NUMBERS + PARAMETERS;

// The words of a state.
pub const STATE: usize = FRONT + record::FLOATS;

// How many records are complete, and how many the sheet says it has.
pub const PROGRESS: usize = 2;

fn parameters_at(words: &[u64]) -> [u64; PARAMETERS]
    requires { length words.now ≡ state_length }
    ensures { result ≡ take places (drop numbers words.now) }
{
    let mut p = [0u64; PARAMETERS];
    copy(&words[NUMBERS..FRONT], &mut p[..]);
    p
}

// Refusals are cut to a byte, which those that a call gave are.
fn header_at(words: &[u64]) -> Header
    requires { length words.now ≡ state_length }
    ensures { result ≡ header_at words.now }
{
    let parameters = parameters_at(words);
    Header {
        refusal: (record::word(words, 1) % 256) as u8,
        model: record::word(words, 2),
        parameters,
        count: record::word(words, 3) as usize,
        at: record::word(words, 4) as usize,
    }
}

fn held_at(words: &[u64]) -> [u8; ROOM]
    requires { length words.now ≡ state_length }
    ensures { result ≡ spell_words (drop front words.now) }
{
    let mut held = [0u8; ROOM];
    writer::write_words(&mut held[..], 0, &words[FRONT..]);
    held
}

fn arrival_at(words: &[u64]) -> Arrival
    requires { length words.now ≡ state_length }
    ensures { result ≡ arrival_at words.now }
{
    let header = header_at(words);
    let held = held_at(words);
    Arrival {
        refusal: (record::word(words, 0) % 256) as u8,
        header,
        complete: record::word(words, 5) as usize,
        kept: record::word(words, 6) as usize,
        held,
    }
}

fn put_numbers(a: Arrival, room: &mut [u64])
    requires { length room.old ≡ numbers }
    ensures { room.new ≡ numbers_of a }
{
    let h = a.header;
    copy(
        &[
            a.refusal as u64,
            h.refusal as u64,
            h.model,
            h.count as u64,
            h.at as u64,
            a.complete as u64,
            a.kept as u64,
        ],
        room,
    );
}

// The bytes held, as the words of the longest record.
fn put_held(held: &[u8], words: &mut [u64])
    requires { (length held.now ≡ room) × (length words.old ≡ floats) }
    ensures { words.new ≡ words_of floats held.now }
{
    let _ = sheet::record_at(held, model::LAST, 0, words);
}

fn put_arrival(a: Arrival, words: &mut [u64])
    requires { length words.old ≡ state_length }
    ensures { words.new ≡ state_words a }
{
    let header = a.header;
    let parameters = header.parameters;
    let held = a.held;
    put_numbers(a, &mut words[0..NUMBERS]);
    copy(&parameters[..], &mut words[NUMBERS..FRONT]);
    put_held(&held[..], &mut words[FRONT..]);
}

fn put_told(t: Told, state: &mut [u64], progress: &mut [u64]) -> u8
    requires { (length state.old ≡ state_length) × (length progress.old ≡ progress_length) }
    ensures value { result ≡ t.refusal }
    ensures state_after { state.new ≡ state_words t.arrival }
    ensures progress_after { progress.new ≡ progress_of t }
{
    let a = t.arrival;
    let h = a.header;
    copy(&[t.complete as u64, h.count as u64], progress);
    put_arrival(a, state);
    t.refusal
}

// What a state itself answers every call by: a fault's number or 15; 6 where its words name no model, which no call of ours leaves; else 0.
fn standing(a: Arrival) -> u8
    ensures { result ≡ standing_of a }
{
    if a.refusal != 0 {
        return a.refusal;
    }
    let header = a.header;
    if parts::names_model(header) {
        return 0;
    }
    answers::UNKNOWN
}

// The state, the progress, and lists for exactly 200 particles.
fn fit(state: usize, progress: usize, words: usize, places: usize) -> bool
    ensures { result ≡ (eqb state state_length && eqb progress progress_length && (eqb words (most * floats) && eqb places (most * 2))) }
{
    let own = (state == STATE) & (progress == PROGRESS);
    let lent = (words == sheet::MOST_WORDS) & (places == sheet::MOST_ANSWERS);
    own & lent
}

// Before the first byte.
pub fn begin(state: &mut [u64]) -> u8
    ensures value { result ≡ begin_code state.old }
    ensures state_after { state.new ≡ begin_state state.old }
{
    if state.len() != STATE {
        return answers::LENGTH;
    }
    let a = parts::begin();
    put_arrival(a, state);
    0
}

// A part: 8 where a list has another length, before all else. Beside it, after a fault, after the end and beside the 6 of a state nothing is
// written.
pub fn part(
    bytes: &[u8],
    state: &mut [u64],
    records: &mut [u64],
    answers: &mut [u64],
    progress: &mut [u64],
) -> u8
    ensures value { result ≡ part_code (lists state.old records.old answers.old progress.old) bytes.now }
    ensures state_after { state.new ≡ (part_lists (lists state.old records.old answers.old progress.old) bytes.now).state }
    ensures records_after { records.new ≡ (part_lists (lists state.old records.old answers.old progress.old) bytes.now).records }
    ensures answers_after { answers.new ≡ (part_lists (lists state.old records.old answers.old progress.old) bytes.now).answers }
    ensures progress_after { progress.new ≡ (part_lists (lists state.old records.old answers.old progress.old) bytes.now).progress }
{
    let fits = fit(state.len(), progress.len(), records.len(), answers.len());
    if fits {
        let came = arrival_at(state);
        let n = standing(came);
        if n != 0 {
            return n;
        }
        let t = parts::part(came, bytes, records, answers);
        return put_told(t, state, progress);
    }
    answers::LENGTH
}

// The end is declared. The lists are lent as to a part; those of records and answers keep their bits.
pub fn end(records: &[u64], answers: &[u64], state: &mut [u64], progress: &mut [u64]) -> u8
    ensures value { result ≡ end_code (lists state.old records.now answers.now progress.old) }
    ensures state_after { state.new ≡ (end_lists (lists state.old records.now answers.now progress.old)).state }
    ensures progress_after { progress.new ≡ (end_lists (lists state.old records.now answers.now progress.old)).progress }
{
    let fits = fit(state.len(), progress.len(), records.len(), answers.len());
    if fits {
        let a = arrival_at(state);
        let stands = standing(a);
        if stands != 0 {
            return stands;
        }
        let t = parts::end(a, records, answers);
        return put_told(t, state, progress);
    }
    answers::LENGTH
}
