// The projection by itself.
ghost use Rattle.std.specs.Prelude.{◌≡◌};
ghost use Rattle.flat_rankine.specs.Project.{answered_of, by_branch, project_of};

use crate::{Branch, Projected, projection};
use answers::Pair;
use plasticity_rankine::RankineArguments;

// Where both are finite.
fn answered(e: [f64; 2]) -> Pair
    ensures { result ≡ answered_of e }
{
    if flat::row_finite(e) {
        Pair::Values(e[0], e[1])
    } else {
        Pair::Refused(answers::NO_NUMBER)
    }
}

// The strains, or the refusal that the branch carries.
fn returned(q: Projected) -> Pair
    ensures { result ≡ by_branch q.branch q.strains }
{
    let b = q.branch;
    let e = q.strains;
    match b {
        Branch::Untouched => answered(e),
        Branch::Moved => answered(e),
        Branch::Refused(n) => Pair::Refused(n),
    }
}

// By the law that `new` makes of the arguments: two log strains and the softened strength are given.
pub fn project(law: RankineArguments, strains: [f64; 2], s: f64) -> Pair
    ensures { result ≡ project_of law strains s }
{
    if law.parameters_finite() & flat::row_finite(strains) & numbers::is_finite(s) {
        let p = law.law();
        if p.moduli_finite() {
            returned(projection::projected(p, strains, s))
        } else {
            Pair::Refused(answers::NO_NUMBER)
        }
    } else {
        Pair::Refused(answers::NOT_FINITE)
    }
}
