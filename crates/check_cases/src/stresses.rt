// The stresses that both solid laws give for the same F with the library's own factors: elastic hardening 1; phase 1, 1/2 and 0;
// lambda and mu alike, 1, 2^-10, 2^-20 and 2^-30; the corotated flag 1, so that phase 0 drops the tensile part. How many are given, and how many refused by 14.
use crate::draws::{COUNT, Draws};
use crate::say;
use std::fmt;
use std::fmt::{Display, Formatter};

const ONE: u64 = 0x3ff0_0000_0000_0000;

const HALF: u64 = 0x3fe0_0000_0000_0000;

// The largest float, above every principal value and every shear.
const WIDE: u64 = 0x7fef_ffff_ffff_ffff;

const MODULI: [u64; 4] = [
    ONE,
    0x3f50_0000_0000_0000,
    0x3eb0_0000_0000_0000,
    0x3e10_0000_0000_0000,
];

#[derive(Clone, Copy)]
enum Law {
    NeoHookean,
    Corotated,
}

impl Display for Law {
    fn fmt<W: fmt::Write>(&self, f: &mut Formatter<W>) -> fmt::Result {
        f.write_str(match *self {
            Law::NeoHookean => "neo-Hookean",
            Law::Corotated => "corotated",
        })
    }
}

#[derive(Clone, Copy, Default)]
struct Seen {
    asked: u64,
    given: u64,
    missed: u64,
    failed: u64,
}

impl Seen {
    fn count(&mut self, refusal: u8, failed: bool) {
        self.asked = self.asked.wrapping_add(1);
        self.given = self.given.wrapping_add(u64::from(refusal == 0));
        self.missed = self.missed.wrapping_add(u64::from(refusal == 14));
        self.failed = self.failed.wrapping_add(u64::from(failed));
    }
}

fn tell(rt: &HostRuntime, law: Law, phase: &str, seen: Seen) {
    let _ = print!(rt; "{law}, phase {phase}");
    say(rt, ": stresses asked ");
    say(rt, seen.asked);
    say(rt, ", given ");
    say(rt, seen.given);
    say(rt, ", 14 ");
    say(rt, seen.missed);
    say(rt, ", failed ");
    say(rt, seen.failed);
    say(rt, "\n");
}

// The refusal's number, and whether the record failed.
fn asked(law: Law, modulus: u64, r: &[u64]) -> (u8, bool) {
    let limits = [WIDE, WIDE];
    let mut stress = [0u64; 9];
    let mut verdict = [0u64; 1];
    let refusal = match law {
        Law::NeoHookean => host::judged::pasoletu_neo_hookean_stress_and_verdict(
            &[HALF, modulus, modulus],
            &limits,
            r,
            &mut stress,
            &mut verdict,
        ),
        Law::Corotated => host::judged::pasoletu_corotated_stress_and_verdict(
            &[ONE, HALF, modulus, modulus],
            &limits,
            r,
            &mut stress,
            &mut verdict,
        ),
    };
    (refusal, verdict[0] == 1)
}

fn all(law: Law, phase: u64) -> Seen {
    let mut seen = Seen::default();
    let mut draws = Draws::new();
    for _ in 0..COUNT {
        let mut r = draws.draw();
        host_passes::pasoletu_factor(&mut r);
        r[record::PHASE] = phase;
        r[record::ELASTIC_HARDENING] = ONE;
        for modulus in MODULI {
            let (refusal, failed) = asked(law, modulus, &r);
            seen.count(refusal, failed);
        }
    }
    seen
}

pub fn run(rt: &HostRuntime) {
    for law in [Law::NeoHookean, Law::Corotated] {
        tell(rt, law, "1", all(law, ONE));
        tell(rt, law, "1/2", all(law, HALF));
        tell(rt, law, "0", all(law, 0));
    }
}
