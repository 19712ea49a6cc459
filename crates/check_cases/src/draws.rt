// Ticket 6's F, drawn by the generator of docs/FACTORS.md from the seed 6.
use crate::{held, say};

pub const COUNT: u64 = 10_000;

#[derive(Clone, Copy)]
pub struct Draws {
    seed: u64,
}

impl Draws {
    pub(crate) fn new() -> Draws {
        Draws { seed: 6 }
    }

    fn number(&mut self) -> u64 {
        self.seed = self.seed.wrapping_add(0x9e37_79b9_7f4a_7c15);
        let s = self.seed;
        let a = (s ^ (s >> 30)).wrapping_mul(0xbf58_476d_1ce4_e5b9);
        let b = (a ^ (a >> 27)).wrapping_mul(0x94d0_49bb_1331_11eb);
        b ^ (b >> 31)
    }

    // An entry of F as bits: sign and digits of a number, and from the next an exponent from -20 to 19.
    fn entry(&mut self) -> u64 {
        let digits = self.number() & 0x800f_ffff_ffff_ffff;
        let exponent = 1003 + self.number() % 40;
        digits | (exponent << 52)
    }

    // A record with the next F in its places, with its determinant, and zeros in all others.
    pub(crate) fn draw(&mut self) -> [u64; record::FLOATS] {
        let mut r = [0u64; record::FLOATS];
        for word in &mut r[..record::U] {
            *word = self.entry();
        }
        r[record::DETERMINANT] = record::determinant(&r);
        r
    }
}

pub fn run(rt: &HostRuntime) {
    let mut draws = Draws::new();
    let mut sum: u64 = 0;
    let mut handed: u64 = 0;
    let mut accepted: u64 = 0;
    for _ in 0..COUNT {
        let mut r = draws.draw();
        for word in &r[..record::U] {
            sum = sum.wrapping_add(*word);
        }
        if host_passes::pasoletu_factor(&mut r) == 0 {
            handed = handed.wrapping_add(1);
            accepted = accepted.wrapping_add(u64::from(held::factors_held(&r)));
        }
    }
    say(rt, "F drawn ");
    say(rt, COUNT);
    say(rt, ", sum of their words ");
    let _ = print!(rt; "{sum:016x}");
    say(rt, ", factors handed back ");
    say(rt, handed);
    say(rt, ", accepted ");
    say(rt, accepted);
    say(rt, "\n");
}
