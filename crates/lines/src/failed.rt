// What failed is said on standard error (RULES, section 7).
ghost use Rattle.std.specs.Prelude.{◌≡◌, false};

use std::io::{Cursor, Error, Write};

// The words of an error of the system, without its number behind them; the room is 0 past them.
fn words(room: &[u8]) -> &str {
    let Ok(text) = std::str::from_utf8(room) else {
        return "";
    };
    match text.split_once(" (os error ") {
        Some((words, _)) => words,
        None => text.trim_end_matches('\0'),
    }
}

// Writes a line to standard error: what failed, a colon and the error's words. Nothing goes on after it: false.
pub fn fail(rt: &impl Eprint, what: &str, error: Error) -> bool
    ensures { result ≡ false }
{
    let mut room = [0u8; 128];
    let mut to = Cursor::new(&mut room[..]);
    let _ = write!(to, "{error}");
    let said = words(&room);
    let _ = eprintln!(rt; "{what}: {said}");
    false
}
