// What a flat law that stores writes into the record.
ghost use Rattle.std.specs.Prelude.{◌≡◌, length};
ghost use Rattle.flat_particles.specs.Layout.{floats};
ghost use Rattle.flat_particles.specs.Law.{put_state};

use crate::{flat_record, rows};
use flat::State;
use model::Model;

pub fn write_state(m: Model, r: &mut [u64], s: State)
    requires { length r.old ≡ floats }
    ensures { r.new ≡ put_state m r.old s }
{
    flat_record::write_shape(r, s);
    rows::write_scalars(m, r, s);
}
