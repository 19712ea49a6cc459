ghost use Rattle.std.specs.Prelude.{◌≡◌};
ghost use Rattle.plasticity_rankine.specs.Sorting.{order_of, sorted_of, arrange_of, restore_of};
ghost use Rattle.plasticity_rankine.specs.Inner.{indexes_of};

use crate::{Rank, Sorted};

// Which of the six orders; equal strains keep index order.
pub fn rank(e: [f64; 3]) -> Rank
    ensures { indexes_of result ≡ order_of e }
{
    if e[0] <= e[1] {
        if e[1] <= e[2] {
            Rank::R012
        } else if e[0] <= e[2] {
            Rank::R021
        } else {
            Rank::R201
        }
    } else if e[0] <= e[2] {
        Rank::R102
    } else if e[1] <= e[2] {
        Rank::R120
    } else {
        Rank::R210
    }
}

pub fn sorted(low: f64, mid: f64, high: f64) -> Sorted
    ensures { result ≡ sorted_of low mid high }
{
    Sorted { low, mid, high }
}

pub fn arrange(k: Rank, e: [f64; 3]) -> Sorted
    ensures { result ≡ arrange_of (indexes_of k) e }
{
    match k {
        Rank::R012 => sorted(e[0], e[1], e[2]),
        Rank::R021 => sorted(e[0], e[2], e[1]),
        Rank::R102 => sorted(e[1], e[0], e[2]),
        Rank::R120 => sorted(e[1], e[2], e[0]),
        Rank::R201 => sorted(e[2], e[0], e[1]),
        Rank::R210 => sorted(e[2], e[1], e[0]),
    }
}

// Back in index order.
pub fn restore(k: Rank, r: Sorted) -> [f64; 3]
    ensures { result ≡ restore_of (indexes_of k) r }
{
    match k {
        Rank::R012 => [r.low, r.mid, r.high],
        Rank::R021 => [r.low, r.high, r.mid],
        Rank::R102 => [r.mid, r.low, r.high],
        Rank::R120 => [r.high, r.low, r.mid],
        Rank::R201 => [r.mid, r.high, r.low],
        Rank::R210 => [r.high, r.mid, r.low],
    }
}
