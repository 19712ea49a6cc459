// Whether the sheet can be written, before a byte is.
ghost use Rattle.std.specs.Prelude.{◌≡◌, ◌+◌, ◌*◌, ◌/◌, ◌<◌, ◌^◌, length};
ghost use Rattle.model.specs.Kinds.{kinds_of};
ghost use Rattle.record.specs.Layout.{floats};
ghost use Rattle.sheet.specs.Records.{sheet_floats};
ghost use Rattle.sheet.specs.Spelling.{spell_number};
ghost use Rattle.writer.specs.Writer.{refusal_of};

use sheet::{BYTES, MOST};

fn number_length(n: u64) -> usize
    ensures { result ≡ length (spell_number n) }
{
    if n < 128 { 1 } else { 2 }
}

// The bytes of a known model's sheet of a list of so many words.
fn sheet_length(model: u64, words: usize) -> usize
    requires { words < 2 ^ 32 }
    ensures { result ≡ length (spell_number model) + length (kinds_of model) * 8 + length (spell_number (words / floats)) + words / floats * sheet_floats model * 8 }
{
    let count = words / record::FLOATS;
    number_length(model)
        + model::parameters_of(model) * BYTES
        + number_length(count as u64)
        + count * sheet::floats_of(model) * BYTES
}

// 0 where nothing is refused.
pub fn refusal(model: u64, parameters: &[u64], records: &[u64], room: usize) -> u8
    ensures { result ≡ refusal_of model parameters.now records.now room }
{
    if records.len() % record::FLOATS != 0 {
        return answers::LENGTH;
    }
    if !model::fit(model, parameters) {
        return answers::LENGTH;
    }
    if !model::known(model, parameters) {
        return answers::UNKNOWN;
    }
    if MOST < records.len() / record::FLOATS {
        return answers::TOO_MANY;
    }
    if room < sheet_length(model, records.len()) {
        return answers::NO_ROOM;
    }
    0
}
