// What a law that stores writes into the record. All of it is finite, and so none is tested for a NaN.
ghost use Rattle.std.specs.Prelude.{◌≡◌, true, length};
ghost use Rattle.plasticity.specs.State.{state_finite};
ghost use Rattle.record.specs.Layout.{floats, determinant_at, put_bare, put_shape};
ghost use Rattle.model.specs.Named.{ready_scalars};
ghost use Rattle.one_record.specs.RecordLaw.{Beside};
ghost use Rattle.one_record.specs.ReadyRecord.{ready_kept};

use model::Ready;
use plasticity::{Outcome, State};

// F and sigma are written, and w, the determinant of that F.
fn write_shape(r: &mut [u64], s: State, w: u64)
    requires { (length r.old ≡ floats) × ((w ≡ determinant_at (put_bare r.old s)) × (state_finite s ≡ true)) }
    ensures { r.new ≡ put_shape r.old s }
{
    let f = s.f;
    let sigma = s.sigma;
    record::store_rows(r, record::F, f);
    record::store_row(r, record::SIGMA, sigma);
    r[record::DETERMINANT] = w;
}

// And the law's scalars.
fn write_state(q: Ready, r: &mut [u64], s: State, w: u64)
    requires { (length r.old ≡ floats) × ((w ≡ determinant_at (put_bare r.old s)) × (state_finite s ≡ true)) }
    ensures { r.new ≡ ready_scalars q (put_shape r.old s) s }
{
    write_shape(r, s, w);
    model::write_scalars(q, r, s);
}

// What an outcome leaves of the record: one that is refused or untouched keeps its bits.
pub fn keep(q: Ready, o: Outcome, s: State, w: u64, r: &mut [u64])
    requires { (length r.old ≡ floats) × Beside o r.old s w }
    ensures { r.new ≡ ready_kept q o r.old s }
{
    match o {
        Outcome::Untouched => {}
        Outcome::Stored(_) => {
            write_state(q, r, s, w);
        }
        Outcome::Refused(_) => {}
    }
}
