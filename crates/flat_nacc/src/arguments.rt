// The arguments of a law that is made by its friction angle.
ghost use Rattle.std.specs.Prelude.{◌≡◌};
ghost use Rattle.plasticity_nacc.specs.Law.{arguments_of};
ghost use Rattle.flat_nacc.specs.Angle.{framed_of, entered_of, new_of};

use crate::Angled;
use answers::Answer;
use plasticity_nacc::{Made, NaccArguments, NaccPlasticity};

// The angle's m in its place.
fn framed(a: NaccArguments, m: Answer) -> Angled
    ensures { result ≡ framed_of a m }
{
    match m {
        Answer::Value(x) => Angled::Arguments(NaccArguments {
            young_modulus: a.young_modulus,
            poisson_ratio: a.poisson_ratio,
            cohesion: a.cohesion,
            hardening_enabled: a.hardening_enabled,
            hardening_factor: a.hardening_factor,
            m: x,
        }),
        Answer::Refused(n) => Angled::Refused(n),
    }
}

// Arguments whose m is still the angle.
fn entered(a: NaccArguments, made: Made) -> Angled
    ensures { result ≡ entered_of a made }
{
    match made {
        Made::Law(_) => framed(a, plasticity_nacc::friction_on_path(2.0, a.m)),
        Made::Refused(n) => Angled::Refused(n),
    }
}

// The friction is that of two axes: a law of three axes made by the same angle has another.
pub fn new(
    young_modulus: f64,
    poisson_ratio: f64,
    cohesion: f64,
    hardening_enabled: bool,
    hardening_factor: f64,
    friction_angle: f64,
) -> Angled
    ensures { result ≡ new_of (arguments_of young_modulus poisson_ratio cohesion hardening_enabled hardening_factor friction_angle) }
{
    let a = NaccArguments {
        young_modulus,
        poisson_ratio,
        cohesion,
        hardening_enabled,
        hardening_factor,
        m: friction_angle,
    };
    let made = NaccPlasticity::with_m(
        young_modulus,
        poisson_ratio,
        cohesion,
        hardening_enabled,
        hardening_factor,
        friction_angle,
    );
    entered(a, made)
}
