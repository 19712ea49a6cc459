// A line of a text, and which float of a record a place is, in the words of calls.toml (tools/reasons.py; RULES, section 7).
use crate::words::print_bits;
use std::io;

// Line k of a part of a text, by the part's first line; nothing behind the text.
fn line(text: &str, first: usize, k: usize) -> &str {
    text.lines().skip(first).nth(k).unwrap_or("")
}

pub fn print_line(rt: &impl Print, text: &str, first: usize, k: usize) -> io::Result<()> {
    rt.print(line(text, first, k))
}

// Sentence k of at most four, three lines each, with two numbers between them.
pub fn print_sentence(
    rt: &impl Print,
    text: &str,
    first: usize,
    k: usize,
    a: f64,
    b: f64,
) -> io::Result<()> {
    let at = 3 * (k % 4);
    print_line(rt, text, first, at)?;
    print_bits(rt, a)?;
    print_line(rt, text, first, at + 1)?;
    print_bits(rt, b)?;
    print_line(rt, text, first, at + 2)
}

// That the float at place i of a record isn't finite, with its name.
pub fn print_place(rt: &impl Print, i: usize) -> io::Result<()> {
    let name = match i {
        ..record::U => ", of F",
        record::U..record::SIGMA => ", of U",
        record::SIGMA..record::VT => ", of sigma",
        record::VT..record::PHASE => ", of V^T",
        record::PHASE => ", phase",
        record::PLASTIC_DETERMINANT => ", plastic determinant",
        record::PLASTIC_HARDENING => ", plastic hardening",
        record::ELASTIC_HARDENING => ", elastic hardening",
        record::LOG_GAIN => ", log gain",
        record::ALPHA => ", alpha",
        _ => ", the stored determinant",
    };
    rt.print(" refused 1 at step 0: float ")?;
    rt.print(i)?;
    rt.print(name)
}
