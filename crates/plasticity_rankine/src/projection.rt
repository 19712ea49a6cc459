// The projection: the branch taken and worked. A NaN would compare false: it is refused before each test that is made.
ghost use Rattle.std.specs.Prelude.{◌≡◌, true};
ghost use Rattle.numbers.specs.Floats.{is_number};
ghost use Rattle.walk.specs.Expr.{num, value};
ghost use Rattle.reason.specs.Traced.{traced};
ghost use Rattle.plasticity_rankine.specs.Law.{parameters_finite, moduli_finite};
ghost use Rattle.plasticity_rankine.specs.Inner.{indexes_of, refused_strains, moved_of, projected_of, by_branch};
ghost use Rattle.plasticity_rankine.specs.Projection.{first_side, second_side, third_side, back_one, back_two, back_all, back_both, third_walk, second_walk, project_of};

use crate::{Branch, Projected, Rank, RankinePlasticity, Sorted, sorting, steps};
use tensor::VectorAnswer;

fn refused_strains(n: u8, step: u8) -> Projected
    ensures { result ≡ refused_strains n step }
{
    let z = [0.0, 0.0, 0.0];
    Projected {
        branch: Branch::Refused(n, step),
        strains: z,
    }
}

// The results are returned where all are finite; the numbers compared stay here.
fn returned(q: Projected) -> VectorAnswer
    ensures { result ≡ by_branch q.branch q.strains }
{
    let e = q.strains;
    let b = q.branch;
    match b {
        Branch::Untouched(_, _) => tensor::answered_vector(e),
        Branch::One(_, _) => tensor::answered_vector(e),
        Branch::Two(_, _) => tensor::answered_vector(e),
        Branch::All(_, _) => tensor::answered_vector(e),
        Branch::Refused(n, _) => tensor::refused_vector(n),
    }
}

impl RankinePlasticity {
    // The left sides of the three tests.
    pub fn first_side(self, sum: f64, a: f64) -> f64
        ensures { result ≡ value (first_side self (num sum) (num a)) }
    {
        self.lambda * sum + 2.0 * self.mu * a
    }

    pub fn second_side(self, sum: f64, a: f64, b: f64) -> f64
        ensures { result ≡ value (second_side self (num sum) (num a) (num b)) }
    {
        (2.0 * self.mu + self.lambda) * b + self.lambda * (sum - a)
    }

    fn third_side(self, c: f64) -> f64
        ensures { result ≡ value (third_side self (num c)) }
    {
        (2.0 * self.mu + 3.0 * self.lambda) * c
    }

    // What the highest strain becomes, what the two highest become, what all become.
    pub fn back_one(self, s: f64, sum: f64, a: f64) -> f64
        ensures { result ≡ value (back_one self (num s) (num sum) (num a)) }
    {
        (s - self.lambda * (sum - a)) / (2.0 * self.mu + self.lambda)
    }

    fn back_two(self, s: f64, sum: f64, a: f64, b: f64) -> f64
        ensures { result ≡ value (back_two self (num s) (num sum) (num a) (num b)) }
    {
        (s - self.lambda * (sum - a - b)) / (2.0 * self.mu + 2.0 * self.lambda)
    }

    fn back_all(self, s: f64) -> f64
        ensures { result ≡ value (back_all self (num s)) }
    {
        s / (2.0 * self.mu + 3.0 * self.lambda)
    }

    // On two axes: what both become.
    pub fn back_both(self, s: f64) -> f64
        ensures { result ≡ value (back_both self (num s)) }
    {
        s / (2.0 * self.mu + 2.0 * self.lambda)
    }

    // The third test.
    fn two_or_all(self, k: Rank, e: [f64; 3], r: Sorted, s: f64) -> Projected
        requires { is_number s ≡ true }
        ensures { result ≡ moved_of (traced (third_walk self (indexes_of k) e r (num s))) }
    {
        let third = self.third_side(r.low);
        if numbers::is_number(third) {
            if third <= s {
                let x = self.back_two(s, tensor::sum(e), r.high, r.mid);
                Projected {
                    branch: Branch::Two(third, s),
                    strains: sorting::restore(k, sorting::sorted(r.low, x, x)),
                }
            } else {
                let x = self.back_all(s);
                Projected {
                    branch: Branch::All(third, s),
                    strains: sorting::restore(k, sorting::sorted(x, x, x)),
                }
            }
        } else {
            refused_strains(answers::NO_NUMBER, steps::THIRD_TEST)
        }
    }

    // The second test, where the first failed.
    fn one_or_more(self, k: Rank, e: [f64; 3], r: Sorted, s: f64) -> Projected
        requires { is_number s ≡ true }
        ensures { result ≡ moved_of (traced (second_walk self (indexes_of k) e r (num s))) }
    {
        let sum = tensor::sum(e);
        let second = self.second_side(sum, r.high, r.mid);
        if numbers::is_number(second) {
            if second <= s {
                let x = self.back_one(s, sum, r.high);
                Projected {
                    branch: Branch::One(second, s),
                    strains: sorting::restore(k, sorting::sorted(r.low, r.mid, x)),
                }
            } else {
                self.two_or_all(k, e, r, s)
            }
        } else {
            refused_strains(answers::NO_NUMBER, steps::SECOND_TEST)
        }
    }

    // The projection of strains in index order, at any strength that is a number.
    pub(crate) fn projected(self, e: [f64; 3], s: f64) -> Projected
        requires { is_number s ≡ true }
        ensures { result ≡ projected_of self e s }
    {
        let k = sorting::rank(e);
        let r = sorting::arrange(k, e);
        let first = self.first_side(tensor::sum(e), r.high);
        if numbers::is_number(first) {
            if first <= s {
                Projected {
                    branch: Branch::Untouched(first, s),
                    strains: e,
                }
            } else {
                self.one_or_more(k, e, r, s)
            }
        } else {
            refused_strains(answers::NO_NUMBER, steps::FIRST_TEST)
        }
    }

    pub(crate) fn parameters_finite(self) -> bool
        ensures { result ≡ parameters_finite self }
    {
        numbers::is_finite(self.tensile_strength) & numbers::is_finite(self.softening_rate)
    }

    pub fn moduli_finite(self) -> bool
        ensures { result ≡ moduli_finite self }
    {
        numbers::is_finite(self.lambda) & numbers::is_finite(self.mu)
    }

    // The projection as a call by itself: log strains and the softened strength are given.
    pub fn project(self, strains: [f64; 3], s: f64) -> VectorAnswer
        ensures { result ≡ project_of self strains s }
    {
        let given = self.parameters_finite() & tensor::row_finite(strains) & numbers::is_finite(s);
        let moduli = self.moduli_finite();
        if given {
            if moduli {
                returned(self.projected(strains, s))
            } else {
                tensor::refused_vector(answers::NO_NUMBER)
            }
        } else {
            tensor::refused_vector(answers::NOT_FINITE)
        }
    }
}
