// The projection: the branch taken and worked. A NaN would compare false: it is refused before each test that is made.
ghost use Rattle.std.specs.Prelude.{◌≡◌, true};
ghost use Rattle.numbers.specs.Floats.{is_number};
ghost use Rattle.walk.specs.Expr.{num};
ghost use Rattle.walk.specs.Walk.{walk_result};
ghost use Rattle.flat_rankine.specs.Projection.{indexes_of, second_walk, refused_strains, moved_to, moved_of, projected_of};

use crate::{Branch, Projected, Sorted, sorting};
use plasticity_rankine::RankinePlasticity;

fn refused_strains(n: u8) -> Projected
    ensures { result ≡ refused_strains n }
{
    let z = [0.0, 0.0];
    Projected {
        branch: Branch::Refused(n),
        strains: z,
    }
}

fn moved_to(strains: [f64; 2]) -> Projected
    ensures { result ≡ moved_to strains }
{
    Projected {
        branch: Branch::Moved,
        strains,
    }
}

// The second test, where the first failed: of the smaller strain.
fn one_or_both(p: RankinePlasticity, e: [f64; 2], r: Sorted, s: f64) -> Projected
    requires { is_number s ≡ true }
    ensures { result ≡ moved_of (walk_result (second_walk p (indexes_of r.up) e r.low r.high (num s))) }
{
    let sum = flat::sum(e);
    let second = p.second_side(sum, r.high, r.low);
    if numbers::is_number(second) {
        if second <= s {
            let x = p.back_one(s, sum, r.high);
            moved_to(sorting::restore(r.up, r.low, x))
        } else {
            let x = p.back_both(s);
            moved_to(sorting::restore(r.up, x, x))
        }
    } else {
        refused_strains(answers::NO_NUMBER)
    }
}

// The projection of strains in index order, at any strength that is a number.
pub fn projected(p: RankinePlasticity, e: [f64; 2], s: f64) -> Projected
    requires { is_number s ≡ true }
    ensures { result ≡ projected_of p e s }
{
    let r = sorting::arrange(e);
    let first = p.first_side(flat::sum(e), r.high);
    if numbers::is_number(first) {
        if first <= s {
            Projected {
                branch: Branch::Untouched,
                strains: e,
            }
        } else {
            one_or_both(p, e, r, s)
        }
    } else {
        refused_strains(answers::NO_NUMBER)
    }
}
