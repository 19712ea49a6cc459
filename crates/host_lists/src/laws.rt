// The elastic laws and the limits from their parameters' bits, in declared order. A place past the end reads as 0.
ghost use Rattle.std.specs.Prelude.{◌≡◌};
ghost use Rattle.host_lists.specs.Laws.{neo_hookean_of, corotated_of, limits_of};

use elasticity_corotated_linear::CorotatedLinearElasticity;
use elasticity_neo_hookean::NeoHookeanElasticity;
use failure_maximum_stress::MaximumStressFailure;

pub fn neo_hookean(p: &[u64]) -> NeoHookeanElasticity
    ensures { result ≡ neo_hookean_of p.now }
{
    NeoHookeanElasticity {
        cfl_coeff: record::float(p, 0),
        lambda: record::float(p, 1),
        mu: record::float(p, 2),
    }
}

pub fn corotated(p: &[u64]) -> CorotatedLinearElasticity
    ensures { result ≡ corotated_of p.now }
{
    CorotatedLinearElasticity {
        split_stress_on_failure: record::word(p, 0) != 0,
        cfl_coeff: record::float(p, 1),
        lambda: record::float(p, 2),
        mu: record::float(p, 3),
    }
}

pub fn limits(p: &[u64]) -> MaximumStressFailure
    ensures { result ≡ limits_of p.now }
{
    MaximumStressFailure {
        max_principal_stress: record::float(p, 0),
        max_shear_stress: record::float(p, 1),
    }
}
