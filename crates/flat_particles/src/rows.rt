// A law is a row: each function here has one arm a law, and no other of this crate has any.
ghost use Rattle.std.specs.Prelude.{◌≡◌, length};
ghost use Rattle.flat_particles.specs.Layout.{floats};
ghost use Rattle.flat_particles.specs.Law.{flat_update, put_scalars};

use crate::flat_record;
use flat::{State, Updated};
use model::Model;

// The update of one particle by the model's law in two axes.
pub fn update(m: Model, u: [[f64; 2]; 2], vt: [[f64; 2]; 2], s: State) -> Updated
    ensures { result ≡ flat_update m u vt s }
{
    match m {
        Model::Snow(p) => flat_snow::update_particle(p, u, vt, s),
        Model::Rankine(a) => flat_rankine::update_particle(a, u, vt, s),
        Model::DruckerPrager(p) => flat_drucker_prager::update_particle(p, u, vt, s),
        Model::Nacc(a) => flat_nacc::update_particle(a, u, vt, s),
    }
}

// Of the six scalars those that the law names.
pub fn write_scalars(m: Model, r: &mut [u64], s: State)
    requires { length r.old ≡ floats }
    ensures { r.new ≡ put_scalars m r.old s }
{
    match m {
        Model::Snow(_) => {
            r[flat_record::PLASTIC_DETERMINANT] = numbers::bits_of(s.scalars.plastic_determinant);
            r[flat_record::ELASTIC_HARDENING] = numbers::bits_of(s.scalars.elastic_hardening);
        }
        Model::Rankine(_) => {
            r[flat_record::PLASTIC_HARDENING] = numbers::bits_of(s.scalars.plastic_hardening);
        }
        Model::DruckerPrager(_) => {
            r[flat_record::PLASTIC_DETERMINANT] = numbers::bits_of(s.scalars.plastic_determinant);
            r[flat_record::PLASTIC_HARDENING] = numbers::bits_of(s.scalars.plastic_hardening);
            r[flat_record::LOG_GAIN] = numbers::bits_of(s.scalars.log_gain);
        }
        Model::Nacc(_) => {
            r[flat_record::ALPHA] = numbers::bits_of(s.scalars.alpha);
        }
    }
}
