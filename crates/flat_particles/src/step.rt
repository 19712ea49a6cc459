// One flat record by its law.
ghost use Rattle.std.specs.Prelude.{◌≡◌, length};
ghost use Rattle.flat_particles.specs.Layout.{floats};
ghost use Rattle.flat_particles.specs.Law.{updated_at, kept, flat_law, record_outcome, record_after};

use crate::{flat_record, rows, stored};
use flat::Updated;
use model::Model;
use plasticity::Outcome;

fn updated(m: Model, r: &[u64]) -> Updated
    ensures { result ≡ updated_at m r.now }
{
    let s = flat_record::read_state(r);
    rows::update(m, flat_record::read_u(r), flat_record::read_vt(r), s)
}

// What the law leaves of the record: one that is refused or untouched keeps its bits.
fn keep(m: Model, d: Updated, r: &mut [u64])
    requires { length r.old ≡ floats }
    ensures { r.new ≡ kept m d.outcome r.old d.state }
{
    let o = d.outcome;
    match o {
        Outcome::Untouched => {}
        Outcome::Stored(_) => {
            let s = d.state;
            stored::write_state(m, r, s);
        }
        Outcome::Refused(_) => {}
    }
}

pub fn step(m: Model, r: &mut [u64]) -> Outcome
    requires { length r.old ≡ floats }
    ensures { (result ≡ (flat_law m r.old).outcome) × (r.new ≡ (flat_law m r.old).after) }
{
    let d = updated(m, &r[..]);
    keep(m, d, r);
    d.outcome
}

// One record by itself. A list of another length is refused by 8 and keeps its bits.
pub fn update_record(m: Model, r: &mut [u64]) -> Outcome
    ensures value { result ≡ record_outcome m r.old }
    ensures r_after { r.new ≡ record_after m r.old }
{
    if r.len() == flat_record::FLOATS {
        return step(m, r);
    }
    Outcome::Refused(answers::LENGTH)
}
