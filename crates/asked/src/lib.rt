// What the program's arguments ask (RULES, section 7).
#![tactic(auto)]

ghost use Rattle.std.specs.Prelude.{◌≡◌, ◌≤◌, [], ◌∷◌, Err, IfOk, IsOkAnd, MatchResult, length, take};
ghost use Rattle.asked.specs.Asked.{asked_of, number_of, only_of};

use std::env::{Env, FillError};

// Argument i in a room, or why it is not there: missing, or longer than the room.
pub fn argument<'a>(rt: &impl Env, i: usize, room: &'a mut [u8]) -> Result<&'a [u8], FillError>
    ensures { IfOk result (λ words. length words.now ≤ length room.old) }
{
    let n = rt.arg(i, room);
    filled(room, n)
}

// The first n bytes of a room, or why there are none: nothing is told of an argument that is too long, its first bytes neither.
fn filled(room: &[u8], n: Result<usize, FillError>) -> Result<&[u8], FillError>
    requires { IfOk n (λ k. k ≤ length room.now) }
    ensures { MatchResult n (λ k. IsOkAnd result (λ words. words.now ≡ take k room.now)) (λ why. result ≡ Err why) }
{
    Ok(&room[..n?])
}

#[derive(Clone, Copy, Debug, PartialEq, Eq)]
pub enum Asked {
    Sheet,
    Why,
    New,
    Frames,
    Other,
}

// What the first argument asks. Words behind it change nothing.
pub fn first(argument: Result<&[u8], FillError>) -> Asked
    ensures { result ≡ asked_of argument.entry }
{
    match argument {
        Ok(words) => match words {
            b"--why" => Asked::Why,
            b"-o" => Asked::New,
            b"--frames" => Asked::Frames,
            _ => Asked::Other,
        },
        Err(FillError::TooLong) => Asked::Other,
        Err(FillError::NotPresent) => Asked::Sheet,
    }
}

// What is no number of one to three digits.
#[derive(Clone, Copy, Debug, PartialEq, Eq)]
pub struct NoNumber;

fn digit(byte: u8) -> Result<usize, NoNumber>
    ensures { result ≡ number_of (byte ∷ []) }
{
    match byte {
        b'0'..=b'9' => Ok(usize::from(byte - b'0')),
        _ => Err(NoNumber),
    }
}

fn number(digits: &[u8]) -> Result<usize, NoNumber>
    ensures { result ≡ number_of digits.now }
{
    match digits {
        [a] => digit(*a),
        [a, b] => Ok(digit(*a)? * 10 + digit(*b)?),
        [a, b, c] => Ok(digit(*a)? * 100 + digit(*b)? * 10 + digit(*c)?),
        _ => Err(NoNumber),
    }
}

// The number of the record whose reason is asked; without such an argument the reasons of all are.
pub fn record(argument: Result<&[u8], FillError>) -> Result<Option<usize>, NoNumber>
    ensures { result ≡ only_of argument.entry }
{
    match argument {
        Ok(digits) => Ok(Some(number(digits)?)),
        Err(FillError::TooLong) => Err(NoNumber),
        Err(FillError::NotPresent) => Ok(None),
    }
}
