// A whole input in a lent room (RULES, section 7).
ghost use Rattle.std.specs.Prelude.{◌≤◌, IfOk, length};

use std::io;
use std::io::Read;

// Reads until the room is full or the input ends: the bytes that came, at the room's start.
pub fn read_whole<'a, F: Read>(file: &mut F, room: &'a mut [u8]) -> io::Result<&'a [u8]>
    ensures { IfOk result (λ bytes. length bytes.now ≤ length room.old) }
{
    let mut at = 0;
    while at < room.len() {
        match file.read(&mut room[at..])? {
            0 => break,
            n => at += n,
        }
    }
    Ok(&room[..at])
}
