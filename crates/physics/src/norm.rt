ghost use Rattle.std.specs.Prelude.{◌≡◌};
ghost use Rattle.physics.specs.Norm.{norm_of};

use answers::Answer;

// The root of the sum of squares, as a step of a law.
pub fn norm_on_path(e: [f64; 3]) -> Answer
    ensures { result ≡ norm_of e }
{
    square_root::sqrt_on_path(tensor::dot(e, e))
}
