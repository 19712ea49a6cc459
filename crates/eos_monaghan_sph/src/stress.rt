ghost use Rattle.std.specs.Prelude.{◌≡◌};
ghost use Rattle.walk.specs.Expr.{num};
ghost use Rattle.walk.specs.Walk.{walk_result, asked};
ghost use Rattle.walk.specs.Tensor.{worth};
ghost use Rattle.walk.specs.Answers.{matrix_as};
ghost use Rattle.eos_monaghan_sph.specs.Stress.{pressure_part, viscous_part, stress_steps, kirchhoff_stress_of};

use crate::{MonaghanSphEos, pressure};
use answers::Answer;
use tensor::MatrixAnswer;

fn pressure_part(p: f64, det: f64) -> [[f64; 3]; 3]
    ensures { result ≡ worth (pressure_part (num p) det) }
{
    tensor::identity_times(-p * det)
}

impl MonaghanSphEos {
    fn viscous_part(self, det: f64, gradient: [[f64; 3]; 3]) -> [[f64; 3]; 3]
        ensures { result ≡ worth (viscous_part self det gradient) }
    {
        let rate = decomposed::plain::strain_rate(gradient);
        tensor::mat_scale(
            2.0 * self.viscosity * det,
            decomposed::plain::deviatoric_part(rate),
        )
    }

    fn stress(self, det: f64, p: f64, gradient: [[f64; 3]; 3]) -> MatrixAnswer
        ensures { result ≡ matrix_as (walk_result (stress_steps self det gradient p)) }
    {
        if self.viscosity == 0.0 {
            tensor::answered(pressure_part(p, det))
        } else {
            let viscous = self.viscous_part(det, gradient);
            tensor::answered(tensor::mat_add(pressure_part(p, det), viscous))
        }
    }

    fn stress_from(self, det: f64, pressure: Answer, gradient: [[f64; 3]; 3]) -> MatrixAnswer
        ensures { result ≡ matrix_as (asked pressure (λ p. walk_result (stress_steps self det gradient p))) }
    {
        match pressure {
            Answer::Value(p) => self.stress(det, p, gradient),
            Answer::Refused(n) => tensor::refused_matrix(n),
        }
    }

    // det is the determinant of the fluid's deformation gradient, gradient that of the velocity.
    pub fn kirchhoff_stress(
        self,
        mass: f64,
        volume: f64,
        density: f64,
        det: f64,
        gradient: [[f64; 3]; 3],
    ) -> MatrixAnswer
        ensures { result ≡ kirchhoff_stress_of self mass volume density det gradient }
    {
        if pressure::inputs_finite(self, mass, volume, density)
            & numbers::is_finite(det)
            & tensor::mat_finite(gradient)
        {
            let p = pressure::worked_pressure(self, mass, volume, density);
            self.stress_from(det, p, gradient)
        } else {
            tensor::refused_matrix(answers::NOT_FINITE)
        }
    }
}
