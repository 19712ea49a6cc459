// An answer put together in a lent text (RULES, section 7), byte by byte. A text that is too short has as many of the bytes as it reaches, and the place
// behind them is then FULL, from which nothing is written.
#![tactic(auto)]

ghost use Rattle.std.specs.Prelude.{◌++◌, ◌/◌, min, length};
ghost use Rattle.answer_text.specs.Text.{Puts, bytes, decimal, hex, outcome, line, lines, sheet_text, refused_text, heading_text};

// No text reaches to this place.
const FULL: usize = usize::MAX;

// Puts words from a place on; the place behind them.
#[tactic(auto, using(crate::proofs::Puts::no_room, crate::proofs::Puts::sets_out))]
fn put(text: &mut [u8], at: usize, words: &[u8]) -> usize
    ensures { Puts words.now text.old at result text.new }
{
    let mut k = at;
    for word in words {
        if text.len() <= k {
            return FULL;
        }
        text[k] = *word;
        k += 1;
    }
    k
}

fn put_decimal(text: &mut [u8], at: usize, number: u64) -> usize
    ensures { Puts (decimal number) text.old at result text.new }
{
    let mut digits = [0u8; 20];
    let k = io::decimal(number, &mut digits);
    put(text, at, &digits[..k])
}

fn put_hex(text: &mut [u8], at: usize, number: u64) -> usize
    ensures { Puts (hex number) text.old at result text.new }
{
    let mut digits = [0u8; 16];
    let k = io::hex(number, 16, &mut digits);
    put(text, at, &digits[..k])
}

fn put_number(text: &mut [u8], at: usize, words: &[u8], number: u64) -> usize
    ensures { Puts (words.now ++ decimal number) text.old at result text.new }
{
    let next = put(text, at, words);
    put_decimal(text, next, number)
}

fn put_stored(text: &mut [u8], at: usize, amount: u64) -> usize
    ensures { Puts (bytes " stored " ++ hex amount) text.old at result text.new }
{
    let next = put(text, at, b" stored ");
    put_hex(text, next, amount)
}

#[tactic(auto, unfolding(crate::specs::Text::outcome))]
fn put_outcome(text: &mut [u8], at: usize, code: u64, value: u64) -> usize
    ensures { Puts (outcome code value) text.old at result text.new }
{
    match code {
        0 => put(text, at, b" untouched"),
        1 => put_stored(text, at, value),
        _ => put_number(text, at, b" refused ", value),
    }
}

// One particle's line.
fn put_line(text: &mut [u8], at: usize, i: usize, code: u64, value: u64) -> usize
    ensures { Puts (line i code value) text.old at result text.new }
{
    let a = put_decimal(text, at, i as u64);
    let b = put_outcome(text, a, code, value);
    put(text, b, b"\n")
}

// The lines of the first n particles, or of as many as the answers tell of.
#[tactic(auto, unfolding(crate::specs::Text::lines))]
fn put_lines(text: &mut [u8], at: usize, answers: &[u64], n: usize) -> usize
    ensures { Puts (lines (min n (length answers.now / 2)) answers.now) text.old at result text.new }
{
    let mut k = at;
    for i in 0..n.min(answers.len() / 2) {
        k = put_line(text, k, i, answers[2 * i], answers[2 * i + 1]);
    }
    k
}

// The answer of a sheet that was worked: the count, a line a particle, "end"; the place behind it.
pub fn put_sheet(text: &mut [u8], at: usize, answers: &[u64], n: usize) -> usize
    ensures { Puts (sheet_text n answers.now) text.old at result text.new }
{
    let a = put_number(text, at, b"particles ", n as u64);
    let b = put(text, a, b"\n");
    let c = put_lines(text, b, answers, n);
    put(text, c, b"end\n")
}

// The one line of a refused sheet; the place behind it.
pub fn put_refused(text: &mut [u8], at: usize, refusal: u8) -> usize
    ensures { Puts (refused_text refusal) text.old at result text.new }
{
    let a = put_number(text, at, b"sheet refused ", refusal as u64);
    put(text, a, b"\n")
}

// The heading of an answer under a number; the place behind it.
pub fn put_heading(text: &mut [u8], at: usize, number: u64) -> usize
    ensures { Puts (heading_text number) text.old at result text.new }
{
    let a = put_number(text, at, b"==> ", number);
    put(text, a, b" <==\n")
}
