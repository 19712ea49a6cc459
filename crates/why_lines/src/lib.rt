// What is printed of the reasons of a sheet's records (RULES, section 7; ticket 8): the count, a line a record or that of one record, and "end"; or the refusal alone.
#![tactic(auto)]

mod rows;
mod texts;
mod words;

ghost use Rattle.std.specs.Prelude.{◌≡◌, IfOk, Ok, None, option_map};
ghost use Rattle.sheet.specs.Sheet.{read_of};

use asked::NoNumber;
use record_why::Cause;
use sheet::Header;
use std::io;

fn print_why(rt: &impl Print, model: u64, cause: Cause) -> io::Result<()> {
    let law = model::law_of(model);
    match cause {
        Cause::Told(reason) => words::print_reason(rt, law, reason),
        Cause::Parameter(i) => rows::print_parameter(rt, law, i),
        Cause::Record(i) => texts::print_place(rt, i),
        Cause::Refused(n) => {
            rt.print(" refused ")?;
            rt.print(n)
        }
    }
}

// The line of record i.
fn print_line(
    rt: &impl Print,
    i: usize,
    model: u64,
    parameters: &[u64],
    record: &[u64],
) -> io::Result<()> {
    rt.print("\n")?;
    rt.print(i)?;
    print_why(rt, model, record_why::why(model, parameters, record))
}

// The lines of a sheet's records, or that of the one that is asked for.
fn print_lines(
    rt: &impl Print,
    h: Header,
    records: &[u64],
    only: Result<Option<usize>, NoNumber>,
) -> io::Result<()> {
    let parameters = h.parameters;
    let parameters = &parameters[..model::parameters_of(h.model)];
    let mut records = records.chunks_exact(record::FLOATS).take(h.count);
    match only {
        Ok(None) => {
            for (i, record) in records.enumerate() {
                print_line(rt, i, h.model, parameters, record)?;
            }
            Ok(())
        }
        Ok(Some(i)) => match records.nth(i) {
            Some(record) => print_line(rt, i, h.model, parameters, record),
            None => {
                rt.print("\nno particle ")?;
                rt.print(i)
            }
        },
        Err(NoNumber) => rt.print("\nno such particle"),
    }
}

// Reads the sheet and prints why each record moves or doesn't, or that one which is asked for; how many records it has, none where it is refused. A sheet that is
// longer than its room is None, as `room.get(..n)` gives it.
pub fn print_reasons(
    rt: &impl Print,
    sheet: Option<&[u8]>,
    only: Result<Option<usize>, NoNumber>,
) -> io::Result<Option<usize>>
    ensures missing { sheet.entry ≡ None → result ≡ Ok None }
    ensures printed { IfOk result (λ n. n ≡ option_map (λ s. (read_of s.now 7400).count) sheet.entry) }
{
    let Some(sheet) = sheet else {
        return Ok(None);
    };
    let mut records = [0u64; sheet::MOST_WORDS];
    let h = reader::read(sheet, &mut records);
    if h.refusal != 0 {
        rt.print("sheet refused ")?;
        rt.print(h.refusal)?;
        rt.print("\n")?;
    } else {
        rt.print("particles ")?;
        rt.print(h.count)?;
        print_lines(rt, h, &records, only)?;
        rt.print("\nend\n")?;
    }
    Ok(Some(h.count))
}
