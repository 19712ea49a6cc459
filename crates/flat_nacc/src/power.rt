// The range of the powers on two axes, which is section 3's.
ghost use Rattle.std.specs.Prelude.{◌≡◌};
ghost use Rattle.answers.specs.Range.{ranged};
ghost use Rattle.thirds.specs.Thirds.{low, high};
ghost use Rattle.flat_nacc.specs.Nacc.{within_of};

use answers::Answer;

// 2^-60 and 2^60.
const LOW: f64 = 8.673617379884035e-19;

const HIGH: f64 = 1152921504606846976.0;

fn ranged(x: f64) -> Answer
    ensures { result ≡ ranged low high x x }
{
    if answers::in_range(LOW, HIGH, x) {
        Answer::Value(x)
    } else {
        answers::outside(LOW, HIGH, x)
    }
}

// x itself, its power 2/d: below the range 2, above it 10, a NaN 3. The other powers are asked this first.
pub fn within(x: f64) -> Answer
    ensures { result ≡ within_of x }
{
    answers::on_path(x, ranged(x))
}
