// The program: reads a sheet on standard input and prints it with its answers; with the argument --frames many sheets, each a frame; with
// --why it prints why each record moves or doesn't, or that record alone whose number comes next; with -o it writes the sheet with its updated
// records instead (RULES, section 7). With any other it reads nothing and says so.
#![tactic(auto)]

use asked::{Asked, NoNumber};

// Words behind the first argument change nothing.
fn asks(rt: &HostRuntime) -> Asked {
    let mut room = [0u8; 8];
    asked::first(asked::argument(rt, 1, &mut room))
}

// The same of those behind the second.
fn only(rt: &HostRuntime) -> Result<Option<usize>, NoNumber> {
    let mut room = [0u8; 3];
    asked::record(asked::argument(rt, 2, &mut room))
}

fn answer(rt: &HostRuntime, sheet: &[u8], asks: Asked) {
    let sheet = Some(sheet);
    let written = match asks {
        Asked::Why => why_lines::print_reasons(rt, sheet, only(rt)),
        Asked::New => lines::write_updated(rt, sheet),
        _ => lines::print_answer(rt, sheet),
    };
    if let Err(error) = written {
        lines::fail(rt, "standard output", error);
    }
}

fn answer_one(rt: &HostRuntime, asks: Asked) {
    let mut room = [0u8; lines::ROOM];
    match lines::read_whole(&mut rt.stdin(), &mut room) {
        Ok(sheet) => answer(rt, sheet, asks),
        Err(error) => {
            lines::fail(rt, "standard input", error);
        }
    }
}

fn main(rt: HostRuntime) {
    let asks = asks(&rt);
    match asks {
        Asked::Frames => {
            lines::answer_frames(&rt, &mut rt.stdin(), lines::ALL_FRAMES);
        }
        Asked::Other => {
            let _ = eprintln!(rt; "slope: the argument is none of --why, -o, --frames");
        }
        Asked::Sheet | Asked::Why | Asked::New => answer_one(&rt, asks),
    }
}
