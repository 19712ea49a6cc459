// What stands before the records, and the records themselves.
ghost use Rattle.std.specs.Prelude.{◌≡◌, ◌≤◌, length};
ghost use Rattle.model.specs.Kinds.{kinds_of};
ghost use Rattle.sheet.specs.Sheet.{most, number_at, parameters_at, refused_by, after_count, after_parameters, preamble_from, as_header, records_end, header_from, record_at, room_at};

use crate::fields::parameters;
use crate::groups::number_at;
use crate::records::{fill_record, floats_of};
use crate::{BYTES, Header, MOST_COUNT, Number, Place};
use model::PARAMETERS;

// A header that is refused.
pub fn refused(n: u8) -> Header
    ensures { result ≡ refused_by n }
{
    Header {
        refusal: n,
        model: 0,
        parameters: [0u64; PARAMETERS],
        count: 0,
        at: 0,
    }
}

fn after_parameters(s: &[u8], model: u64, parameters: [u64; PARAMETERS], at: usize) -> Header
    ensures { result ≡ as_header (after_count model parameters (number_at s.now at)) }
{
    let n = number_at(s, at);
    match n {
        Number::Refused(n) => refused(n),
        Number::Read(count, next) => {
            if MOST_COUNT < count {
                return refused(answers::TOO_MANY);
            }
            Header {
                refusal: 0,
                model,
                parameters,
                count: count as usize,
                at: next,
            }
        }
    }
}

fn after_model(s: &[u8], model: u64, at: usize) -> Header
    ensures { result ≡ as_header (after_parameters s.now model (parameters_at (kinds_of model) s.now at)) }
{
    let p = parameters(s, model, at);
    if p.refusal != 0 {
        return refused(p.refusal);
    }
    let bits = p.bits;
    after_parameters(s, model, bits, p.at)
}

// What stands before the records, from a place on, in a sheet that may not have come whole: 4 where more is wanted.
pub fn preamble_at(s: &[u8], at: usize) -> Header
    ensures { result ≡ as_header (preamble_from s.now at) }
{
    let n = number_at(s, at);
    match n {
        Number::Refused(n) => refused(n),
        Number::Read(model, next) => {
            if model::LAST < model {
                return refused(answers::UNKNOWN);
            }
            after_model(s, model, next)
        }
    }
}

fn records_end(
    s: &[u8],
    model: u64,
    parameters: [u64; PARAMETERS],
    count: usize,
    at: usize,
) -> Header
    requires { (at ≤ length s.now) × (count ≤ most) }
    ensures { result ≡ records_end s.now model parameters count at }
{
    let wanted = count * floats_of(model) * BYTES;
    let left = s.len() - at;
    if left < wanted {
        return refused(answers::ENDS_EARLY);
    }
    if wanted < left {
        return refused(answers::TOO_MANY);
    }
    Header {
        refusal: 0,
        model,
        parameters,
        count,
        at,
    }
}

// The header of a sheet that stands from a place on: what stands before the records, which end the sheet.
pub fn header_at(s: &[u8], at: usize) -> Header
    ensures { result ≡ header_from s.now at }
{
    let h = preamble_at(s, at);
    if h.refusal != 0 {
        return h;
    }
    let parameters = h.parameters;
    records_end(s, h.model, parameters, h.count, h.at)
}

// The record that stands at a place, into a room of a list's record; beside a refusal the room keeps its bits.
pub fn record_at(s: &[u8], model: u64, at: usize, room: &mut [u64]) -> Place
    ensures { (result ≡ record_at model s.now at (length room.old)) × (room.new ≡ room_at model s.now at room.old) }
{
    if room.len() != record::FLOATS {
        return Place::Refused(answers::LENGTH);
    }
    if model::LAST < model {
        return Place::Refused(answers::UNKNOWN);
    }
    let wanted = floats_of(model) * BYTES;
    if s.len() < at {
        return Place::Refused(answers::ENDS_EARLY);
    }
    if s.len() - at < wanted {
        return Place::Refused(answers::ENDS_EARLY);
    }
    fill_record(s, model, at, room);
    Place::Next(at + wanted)
}
