// One zone's tally, by value.
ghost use Rattle.std.specs.Prelude.{◌≡◌};
ghost use Rattle.tallies.specs.Tallies.{none, spare, with_particles, told_of, fits, has_room};

use plasticity::Outcome;

// The most zones, and the last number that a tally may reach.
pub const ZONES: usize = 256;

pub const LAST: u64 = 4294967295;

// Particles now; and so far: untouched, stored, refused, and failed of those not refused.
#[derive(Clone, Copy)]
pub struct Tally {
    pub particles: u64,
    pub untouched: u64,
    pub stored: u64,
    pub refused: u64,
    pub failed: u64,
}

pub fn empty() -> Tally
    ensures { result ≡ none }
{
    Tally {
        particles: 0,
        untouched: 0,
        stored: 0,
        refused: 0,
        failed: 0,
    }
}

pub fn no_tallies() -> [Tally; 256]
    ensures { result ≡ spare }
{
    let t = Tally {
        particles: 0,
        untouched: 0,
        stored: 0,
        refused: 0,
        failed: 0,
    };
    [t; 256]
}

// The first number; the others as they are.
pub fn with_particles(t: Tally, n: u64) -> Tally
    ensures { result ≡ with_particles n t }
{
    Tally {
        particles: n,
        untouched: t.untouched,
        stored: t.stored,
        refused: t.refused,
        failed: t.failed,
    }
}

// Which numbers so far an outcome adds to: 0 untouched, 1 stored, 2 refused; and whether failed besides.
#[derive(Drop)]
pub struct Told {
    pub which: u64,
    pub failed: bool,
}

// The step by value: what one outcome changes.
pub fn tell(o: Outcome, failed: bool) -> Told
    ensures { result ≡ told_of o failed }
{
    let which = match o {
        Outcome::Untouched => 0,
        Outcome::Stored(_) => 1,
        Outcome::Refused(_) => 2,
    };
    Told { which, failed }
}

// Whether n and so many more reach no further than the last number.
fn fit(n: u64, more: u64) -> bool
    ensures { result ≡ fits n more }
{
    if more <= LAST {
        return n <= LAST - more;
    }
    false
}

// Whether each of the four has room for an outcome of every particle now.
pub fn has_room(t: Tally) -> bool
    ensures { result ≡ has_room t }
{
    let n = t.particles;
    (fit(t.untouched, n) & fit(t.stored, n)) & (fit(t.refused, n) & fit(t.failed, n))
}
