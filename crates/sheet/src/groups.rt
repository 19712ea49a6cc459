// A number in groups of seven bits.
ghost use Rattle.std.specs.Prelude.{◌≡◌};
ghost use Rattle.sheet.specs.Sheet.{number_at};

use crate::Number;

fn wide(x: u8) -> u64
    ensures { result ≡ x }
{
    x as u64
}

pub fn number_at(s: &[u8], at: usize) -> Number
    ensures { result ≡ number_at s.now at }
{
    if s.len() <= at {
        return Number::Refused(answers::ENDS_EARLY);
    }
    let low = wide(s[at]);
    if low < 128 {
        return Number::Read(low, at + 1);
    }
    let next = at + 1;
    if s.len() <= next {
        return Number::Refused(answers::ENDS_EARLY);
    }
    let high = wide(s[next]);
    if 128 <= high {
        return Number::Refused(answers::NOT_SHORTEST);
    }
    if high == 0 {
        return Number::Refused(answers::NOT_SHORTEST);
    }
    Number::Read(low - 128 + high * 128, at + 2)
}
