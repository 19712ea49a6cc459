// The formulas of one number each (RULES, section 5), over however many axes.
ghost use Rattle.std.specs.Prelude.{◌≡◌};
ghost use Rattle.walk.specs.Expr.{num, neg, ◌*ᵉ◌, value};
ghost use Rattle.reason.specs.Traced.{traced, number_as};
ghost use Rattle.numbers.specs.Floats.{max_of};
ghost use Rattle.tensor.specs.Matrix.{zero};
ghost use Rattle.plasticity_nacc.specs.Formulas.{p0, pressure, stressed, low, y0, y1, y, volume_square, lower_square, scale};
ghost use Rattle.plasticity_nacc.specs.Projection.{raise_walk};

use crate::{NaccPlasticity, Trial, steps};
use answers::Answer;
use reason::Number;

impl NaccPlasticity {
    // What the hyperbolic sine is asked.
    pub fn argument(self, alpha: f64) -> f64
        ensures { result ≡ value (num self.hardening_factor *ᵉ num (max_of (value (neg (num alpha))) zero)) }
    {
        self.hardening_factor * numbers::max(-alpha, 0.0)
    }

    // x is that sine.
    pub fn p0(self, x: f64) -> f64
        ensures { result ≡ value (p0 self (num x)) }
    {
        self.kappa * (0.00001 + x)
    }

    pub fn pressure(self, j: f64) -> f64
        ensures { result ≡ value (pressure self (num j)) }
    {
        -(self.kappa / 2.0 * (j - 1.0 / j)) * j
    }

    // The deviatoric stress at the singular value x; w is j to the power -2/d.
    pub fn stressed(self, w: f64, x: f64, mean: f64) -> f64
        ensures { result ≡ value (stressed self (num w) (num x) (num mean)) }
    {
        self.mu * w * (x * x - mean)
    }

    // The lower tip's pressure.
    pub fn low(self, p0: f64) -> f64
        ensures { result ≡ value (low self (num p0)) }
    {
        -self.cohesion * p0
    }

    // The square of the volume at the pressure x.
    pub fn volume_square(self, x: f64) -> f64
        ensures { result ≡ value (volume_square self (num x)) }
    {
        -2.0 * x / self.kappa + 1.0
    }

    // And at the lower tip.
    pub fn lower_square(self, p0: f64) -> f64
        ensures { result ≡ value (lower_square self (num p0)) }
    {
        2.0 * self.cohesion * p0 / self.kappa + 1.0
    }

    // Alpha at the tip whose volume is x.
    pub fn raised(self, x: f64, j: f64, alpha: f64) -> Number
        ensures { result ≡ number_as (traced (raise_walk self (num x) j alpha)) }
    {
        if self.hardening_enabled {
            match logarithm::ln_on_path(j / x) {
                Answer::Value(l) => Number::Value(alpha + l),
                Answer::Refused(n) => Number::Refused(n, steps::TIP_LOG),
            }
        } else {
            Number::Value(alpha)
        }
    }

    // d is the number of axes.
    pub fn y0(self, d: f64) -> f64
        ensures { result ≡ value (y0 (num d) self) }
    {
        (1.0 + 2.0 * self.cohesion) * ((6.0 - d) / 2.0)
    }

    pub fn y1(self, t: Trial) -> f64
        ensures { result ≡ value (y1 self t) }
    {
        self.friction * self.friction * (t.p + self.cohesion * t.p0) * (t.p - t.p0)
    }

    pub fn y(self, d: f64, t: Trial) -> f64
        ensures { result ≡ value (y (num d) self t) }
    {
        self.y0(d) * t.squares + self.y1(t)
    }

    // w is j to the power 2/d.
    pub fn scale(self, r: f64, w: f64) -> f64
        ensures { result ≡ value (scale self (num r) (num w)) }
    {
        r * (w / self.mu)
    }
}
