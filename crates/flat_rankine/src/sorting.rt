ghost use Rattle.std.specs.Prelude.{◌≡◌};
ghost use Rattle.plasticity_rankine.specs.Sorting.{order_of, restored_of};
ghost use Rattle.flat_rankine.specs.Projection.{pair, indexes_of, sorted_of};

use crate::Sorted;

// Equal strains keep index order.
pub fn arrange(e: [f64; 2]) -> Sorted
    ensures { (result ≡ sorted_of e) × (indexes_of result.up ≡ order_of e) }
{
    let x = e[0];
    let y = e[1];
    if x <= y {
        Sorted {
            up: true,
            low: x,
            high: y,
        }
    } else {
        Sorted {
            up: false,
            low: y,
            high: x,
        }
    }
}

// Back in index order.
pub fn restore(up: bool, low: f64, high: f64) -> [f64; 2]
    ensures { result ≡ restored_of (indexes_of up) (pair low high) }
{
    if up { [low, high] } else { [high, low] }
}
