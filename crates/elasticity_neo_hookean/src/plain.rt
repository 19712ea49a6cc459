ghost use Rattle.std.specs.Prelude.{◌≡◌};
ghost use Rattle.walk.specs.Expr.{value};
ghost use Rattle.elasticity_neo_hookean.specs.Law.{coefficient};

// What the tensile part is multiplied by.
pub fn phase_coeff(phase: f64) -> f64
    ensures { result ≡ value (coefficient phase) }
{
    (1.0 - 0.001) * phase * phase + 0.001
}
