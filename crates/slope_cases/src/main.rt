// Runs the sheets in the files 00, 01, .. of its folder, as the program would, each under its number: its answer, then its reasons.
#![tactic(auto)]

use std::{fs, io};

// A print that fails is passed over: that of what stands below it tells.
fn print_heading(rt: &HostRuntime, name: &str, words: &str) {
    let _ = rt.print("-- ");
    let _ = rt.print(name);
    let _ = rt.print(words);
}

// The answer and the reasons of a sheet; of that record alone which argument 1000 names, where it is there.
fn print_case(rt: &HostRuntime, name: &str, sheet: &[u8]) -> io::Result<()> {
    let mut room = [0u8; 3];
    let only = asked::record(asked::argument(rt, 1000, &mut room));
    print_heading(rt, name, "\n");
    lines::print_answer(rt, Some(sheet))?;
    print_heading(rt, name, " why\n");
    why_lines::print_reasons(rt, Some(sheet), only)?;
    Ok(())
}

// The sheet in file k; whether there was one.
fn run_case(rt: &HostRuntime, k: u8) -> bool {
    let digits = [b'0' + k / 10, b'0' + k % 10];
    let Ok(name) = std::str::from_utf8(&digits) else {
        return false;
    };
    let Ok(mut file) = fs::open(rt, name) else {
        return false;
    };
    let mut room = [0u8; lines::ROOM];
    match lines::read_whole(&mut file, &mut room) {
        Ok(sheet) => print_case(rt, name, sheet).is_ok(),
        Err(error) => lines::fail(rt, name, error),
    }
}

fn main(rt: HostRuntime) {
    for k in 0..100 {
        if !run_case(&rt, k) {
            return;
        }
    }
}
