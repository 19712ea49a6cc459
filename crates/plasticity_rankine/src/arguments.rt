// The law of its arguments.
ghost use Rattle.std.specs.Prelude.{◌≡◌};
ghost use Rattle.plasticity_rankine.specs.Law.{arguments_of, law_of, elastic_finite, arguments_finite, made_of};
ghost use Rattle.plasticity_rankine.specs.Projection.{arguments_project};
ghost use Rattle.plasticity_rankine.specs.Rankine.{arguments_update};

use crate::{Made, RankineArguments, RankinePlasticity};
use plasticity::{State, Updated};
use tensor::VectorAnswer;

impl RankineArguments {
    // The law with the Lamé parameters of these arguments.
    pub fn law(self) -> RankinePlasticity
        ensures { result ≡ law_of self }
    {
        let l = physics::plain::lame_lambda_mu(self.young_modulus, self.poisson_ratio);
        RankinePlasticity {
            mu: l.mu,
            lambda: l.lambda,
            tensile_strength: self.tensile_strength,
            softening_rate: self.softening_rate,
        }
    }

    pub(crate) fn elastic_finite(self) -> bool
        ensures { result ≡ elastic_finite self }
    {
        numbers::is_finite(self.young_modulus) & numbers::is_finite(self.poisson_ratio)
    }

    // Whether all four arguments are finite.
    pub fn parameters_finite(self) -> bool
        ensures { result ≡ arguments_finite self }
    {
        self.elastic_finite()
            & numbers::is_finite(self.tensile_strength)
            & numbers::is_finite(self.softening_rate)
    }

    fn made(self) -> Made
        ensures { result ≡ made_of self }
    {
        let p = self.law();
        if self.elastic_finite() & p.parameters_finite() {
            if p.moduli_finite() {
                Made::Law(p)
            } else {
                Made::Refused(answers::NO_NUMBER)
            }
        } else {
            Made::Refused(answers::NOT_FINITE)
        }
    }

    // The update of one particle by the law that `new` makes of these arguments.
    pub fn update_particle(self, u: [[f64; 3]; 3], vt: [[f64; 3]; 3], s: State) -> Updated
        ensures { result ≡ arguments_update self u vt s }
    {
        if self.elastic_finite() {
            self.law().update_particle(u, vt, s)
        } else {
            plasticity::refuse(answers::NOT_FINITE, s)
        }
    }

    // The projection by the law that `new` makes of these arguments: log strains and the softened strength are given.
    pub fn project(self, strains: [f64; 3], s: f64) -> VectorAnswer
        ensures { result ≡ arguments_project self strains s }
    {
        if self.elastic_finite() {
            self.law().project(strains, s)
        } else {
            tensor::refused_vector(answers::NOT_FINITE)
        }
    }
}

impl RankinePlasticity {
    pub fn new(
        young_modulus: f64,
        poisson_ratio: f64,
        tensile_strength: f64,
        softening_rate: f64,
    ) -> Made
        ensures { result ≡ made_of (arguments_of young_modulus poisson_ratio tensile_strength softening_rate) }
    {
        let a = RankineArguments {
            young_modulus,
            poisson_ratio,
            tensile_strength,
            softening_rate,
        };
        a.made()
    }
}
