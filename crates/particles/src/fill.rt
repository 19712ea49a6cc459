// The determinant of each record's F, filled in.
ghost use Rattle.std.specs.Prelude.{◌≡◌, ◌+◌, ◌*◌, ◌≤◌, length};
ghost use Rattle.record.specs.Layout.{floats, filled};
ghost use Rattle.particles.specs.Pass.{record_at, replaced, worked};
ghost use Rattle.particles.specs.Fill.{fill_law, fill_answer, fill_records};

fn fill(r: &mut [u64])
    requires { length r.old ≡ floats }
    ensures { r.new ≡ filled r.old }
{
    r[record::DETERMINANT] = record::determinant(&r[..]);
}

// Record i.
fn one(xs: &mut [u64], i: usize)
    requires { i * floats + floats ≤ length xs.old }
    ensures { xs.new ≡ replaced xs.old i (filled (record_at xs.old i)) }
{
    let a = i * record::FLOATS;
    let b = a + record::FLOATS;
    fill(&mut xs[a..b]);
}

fn all(xs: &mut [u64], n: usize)
    requires { length xs.old ≡ n * floats }
    ensures { xs.new ≡ worked fill_law xs.old n }
{
    for i in 0..n {
        one(xs, i);
    }
}

// Each record's last float becomes the determinant of its F, as bits, whatever stood there; nothing else changes, and no float is tested.
// 0, or 8 for a list that is no whole number of records: then nothing is written.
pub fn fill_determinants(xs: &mut [u64]) -> u8
    ensures value { result ≡ fill_answer xs.old }
    ensures xs_after { xs.new ≡ fill_records xs.old }
{
    let n = xs.len() / record::FLOATS;
    if n * record::FLOATS == xs.len() {
        all(xs, n);
        return 0;
    }
    answers::LENGTH
}
