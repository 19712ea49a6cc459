// The words of a reason (docs/STEPS.md), those of a law by `rows`; the numbers compared stand as their bits. Words and numbers are printed each by itself, so that
// what an output takes that hasn't room for all ends where one of them does.
use crate::rows;
use model::Law;
use reason::{Bound, Reason};
use std::fmt::{Display, Formatter};
use std::{fmt, io};

pub fn print_bits(rt: &impl Print, x: f64) -> io::Result<()> {
    print!(rt; "{:016x}", numbers::bits_of(x))
}

// Branch 0 left the record as it was.
fn print_tested(rt: &impl Print, law: Law, test: u8, held: bool, a: f64, b: f64) -> io::Result<()> {
    let branch = model::branch(law, test, held) as usize;
    rt.print(if branch == 0 {
        " stayed, test "
    } else {
        " yielded, test "
    })?;
    rt.print(test)?;
    rows::print_test(rt, law, branch, a, b)
}

fn print_zeros(rt: &impl Print, test: u8, a: f64, b: f64, c: f64) -> io::Result<()> {
    rt.print(" yielded, test ")?;
    rt.print(test)?;
    rt.print(": no shape is left in its strains, ")?;
    print_bits(rt, a)?;
    rt.print(" ")?;
    print_bits(rt, b)?;
    rt.print(" ")?;
    print_bits(rt, c)?;
    rt.print(" are zero; sigma are all ones")
}

// Which bound a singular value was brought to.
#[derive(Clone, Copy)]
struct Brought(Bound);

impl Display for Brought {
    fn fmt<W: fmt::Write>(&self, f: &mut Formatter<W>) -> fmt::Result {
        f.write_str(match self.0 {
            Bound::Neither => " neither",
            Bound::Lower => " lower",
            Bound::Upper => " upper",
        })
    }
}

fn print_clamped(rt: &impl Print, x: Bound, y: Bound, z: Bound) -> io::Result<()> {
    if matches!((x, y, z), (Bound::Neither, Bound::Neither, Bound::Neither)) {
        return rt.print(" inside its bounds");
    }
    rt.print(" clamped, sigma by its bound:")?;
    rt.print(Brought(x))?;
    rt.print(Brought(y))?;
    rt.print(Brought(z))
}

pub fn print_reason(rt: &impl Print, law: Law, q: Reason) -> io::Result<()> {
    match q {
        Reason::Tested(test, held, a, b) => print_tested(rt, law, test, held, a, b),
        Reason::Zeros(test, _, a, b, c) => print_zeros(rt, test, a, b, c),
        Reason::Flagged(test, _) => {
            rt.print(" stayed, test ")?;
            rt.print(test)?;
            rt.print(": the law acts on failed particles only; untouched")
        }
        Reason::Clamped(x, y, z) => print_clamped(rt, x, y, z),
        Reason::Refused(n, step) => {
            rt.print(" refused ")?;
            rt.print(n)?;
            rt.print(" at step ")?;
            rt.print(step)?;
            rows::print_refused(rt, law, usize::from(step))
        }
    }
}
