// Sheets one after the other on an input, each a frame: its length, 8 bytes, the lowest first, and its bytes (RULES, section 7).
ghost use Rattle.std.specs.Prelude.{◌≤◌};

use crate::{ROOM, fail, print_under, read_whole};
use std::io::{Error, Read};

// No input has as many frames.
pub const ALL_FRAMES: u64 = u64::MAX;

// What is cut, longer than its room, or could not be read.
#[derive(Clone, Copy, Debug, PartialEq, Eq)]
struct NoFrame;

impl From<Error> for NoFrame {
    fn from(_error: Error) -> NoFrame {
        NoFrame
    }
}

// The length that the next frame tells, which may be more than a room has. An input without a further byte ends there.
fn read_length<F: Read>(file: &mut F) -> Result<Option<usize>, NoFrame> {
    let mut head = [0u8; 8];
    match read_whole(file, &mut head)?.len() {
        0 => Ok(None),
        8 => Ok(Some(u64::from_le_bytes(head) as usize)),
        _ => Err(NoFrame),
    }
}

// The next frame's bytes at the start of the room.
fn read_frame<'a, F: Read>(file: &mut F, room: &'a mut [u8]) -> Result<Option<&'a [u8]>, NoFrame> {
    let Some(n) = read_length(file)? else {
        return Ok(None);
    };
    if room.len() < n {
        return Err(NoFrame);
    }
    let bytes = read_whole(file, &mut room[..n])?;
    if bytes.len() < n {
        return Err(NoFrame);
    }
    Ok(Some(bytes))
}

// The answer of the next frame under its number; whether there may be a further one.
fn answer_frame<F: Read>(rt: &(impl Print + Eprint), file: &mut F, number: u64) -> bool {
    let mut room = [0u8; ROOM];
    match read_frame(file, &mut room) {
        Ok(Some(sheet)) => match print_under(rt, number, Some(sheet)) {
            Ok(_) => true,
            Err(error) => fail(rt, "standard output", error),
        },
        Ok(None) => false,
        Err(NoFrame) => {
            let _ = eprintln!(rt; "standard input: this is no whole frame");
            false
        }
    }
}

// The answers of an input's frames, each under its number from 0, until it ends, something fails or there are as many as asked for; how many.
pub fn answer_frames<F: Read>(rt: &(impl Print + Eprint), file: &mut F, most: u64) -> u64
    ensures { result ≤ most }
{
    for number in 0..most {
        if !answer_frame(rt, file, number) {
            return number;
        }
    }
    most
}
