// What is printed of a sheet (RULES, section 7): the count, a line a particle, and "end"; or the refusal alone. Or the sheet itself,
// with its updated records.
#![tactic(auto)]

mod failed;
mod frames;
mod whole;

ghost use Rattle.std.specs.Prelude.{◌≡◌, ◌++◌, ◌≤◌, IfOk, Ok, None, length, option_map};
ghost use Rattle.answer_text.specs.Text.{Puts, heading_text};
ghost use Rattle.lines.specs.Answer.{answer_text, updated_length};

pub use failed::fail;
pub use frames::{ALL_FRAMES, answer_frames};
use std::io;
use std::io::ErrorKind;
pub use whole::read_whole;
use writer::Written;

// A byte more than the longest sheet has, so that every longer input is refused: by 5, 6 or 7, as the reader meets them.
pub const ROOM: usize = sheet::LONGEST + 1;

// More bytes than an answer has: its heading, its first line, 28 bytes a particle and "end".
pub const TEXT: usize = 8192;

// Runs a sheet and puts its answer into the text from a place on; the place behind it.
fn put_answer(s: &[u8], text: &mut [u8], at: usize) -> usize
    ensures { Puts (answer_text s.now) text.old at result text.new }
{
    let mut records = [0u64; sheet::MOST_WORDS];
    let mut answers = [0u64; sheet::MOST_ANSWERS];
    let r = sheet_run::run_sheet(s, &mut records, &mut answers);
    if r.refusal != 0 {
        answer_text::put_refused(text, at, r.refusal)
    } else {
        answer_text::put_sheet(text, at, &answers, r.particles)
    }
}

// The first n bytes of a room, by one call, so that what a failed output holds is a start of them; how many.
fn write_front(rt: &impl Print, room: &[u8], n: usize) -> io::Result<usize>
    ensures { IfOk result (λ k. (k ≡ n) × (n ≤ length room.now)) }
{
    let Some(front) = room.get(..n) else {
        return Err(io::Error::from(ErrorKind::WriteZero));
    };
    rt.write_all(front)?;
    Ok(n)
}

// Runs a sheet and prints its answer; how many bytes, none of a sheet that is longer than its room. Such a one is None, as `room.get(..n)` gives it.
pub fn print_answer(rt: &impl Print, sheet: Option<&[u8]>) -> io::Result<Option<usize>>
    ensures missing { sheet.entry ≡ None → result ≡ Ok None }
    ensures printed { IfOk result (λ n. n ≡ option_map (λ s. length (answer_text s.now)) sheet.entry) }
{
    let Some(sheet) = sheet else {
        return Ok(None);
    };
    let mut text = [0u8; TEXT];
    let end = put_answer(sheet, &mut text, 0);
    Ok(Some(write_front(rt, &text, end)?))
}

// The same under a heading with a number.
pub fn print_under(rt: &impl Print, number: u64, sheet: Option<&[u8]>) -> io::Result<Option<usize>>
    ensures missing { sheet.entry ≡ None → result ≡ Ok None }
    ensures printed { IfOk result (λ n. n ≡ option_map (λ s. length (heading_text number ++ answer_text s.now)) sheet.entry) }
{
    let Some(sheet) = sheet else {
        return Ok(None);
    };
    let mut text = [0u8; TEXT];
    let at = answer_text::put_heading(&mut text, 0, number);
    let end = put_answer(sheet, &mut text, at);
    Ok(Some(write_front(rt, &text, end)?))
}

// Runs the sheet and writes it with its updated records, nothing of a refused one; how many bytes.
#[tactic(auto, unfolding(crate::specs::Answer::updated_length))]
pub fn write_updated(rt: &impl Print, sheet: Option<&[u8]>) -> io::Result<Option<usize>>
    ensures missing { sheet.entry ≡ None → result ≡ Ok None }
    ensures written { IfOk result (λ n. n ≡ option_map (λ s. updated_length s.now) sheet.entry) }
{
    let Some(sheet) = sheet else {
        return Ok(None);
    };
    let mut records = [0u64; sheet::MOST_WORDS];
    let mut answers = [0u64; sheet::MOST_ANSWERS];
    let mut out = [0u8; sheet::LONGEST];
    match sheet_run::run_out(sheet, &mut records, &mut answers, &mut out) {
        Written::Length(n) => Ok(Some(write_front(rt, &out, n)?)),
        Written::Refused(_) => Ok(Some(0)),
    }
}
