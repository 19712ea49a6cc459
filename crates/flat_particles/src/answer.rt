// The answers of a record, and the counts of a pass.
ghost use Rattle.std.specs.Prelude.{◌≡◌, ◌+◌, ◌*◌, ◌^◌, ◌≤◌, ◌<◌, length};
ghost use Rattle.particles.specs.Pass.{code_of, value_of, answered};
ghost use Rattle.flat_particles.specs.Pass.{counted_of};

use particles::Counts;
use plasticity::Outcome;

fn code(o: Outcome) -> u64
    ensures { result ≡ code_of o }
{
    match o {
        Outcome::Untouched => 0,
        Outcome::Stored(_) => 1,
        Outcome::Refused(_) => 2,
    }
}

fn value(o: Outcome) -> u64
    ensures { result ≡ value_of o }
{
    match o {
        Outcome::Untouched => 0,
        Outcome::Stored(a) => numbers::bits_of(a),
        Outcome::Refused(n) => n as u64,
    }
}

// The two answers of record i.
pub fn write_answer(out: &mut [u64], i: usize, o: Outcome)
    requires { i * 2 + 2 ≤ length out.old }
    ensures { out.new ≡ answered out.old i o }
{
    let k = i * 2;
    out[k] = code(o);
    out[k + 1] = value(o);
}

// One record more.
pub fn count_one(c: Counts, o: Outcome) -> Counts
    requires { (c.untouched < 2 ^ 63) × (c.stored < 2 ^ 63) × (c.refused < 2 ^ 63) }
    ensures { result ≡ counted_of c o }
{
    match o {
        Outcome::Untouched => Counts {
            untouched: c.untouched + 1,
            stored: c.stored,
            refused: c.refused,
        },
        Outcome::Stored(_) => Counts {
            untouched: c.untouched,
            stored: c.stored + 1,
            refused: c.refused,
        },
        Outcome::Refused(_) => Counts {
            untouched: c.untouched,
            stored: c.stored,
            refused: c.refused + 1,
        },
    }
}
