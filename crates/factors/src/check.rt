// The check of factors, exact over whole numbers.
ghost use Rattle.std.specs.Prelude.{◌≡◌, true};
ghost use Rattle.exact.specs.Units.{mag};
ghost use Rattle.numbers.specs.Floats.{finite};
ghost use Rattle.tensor.specs.Finite.{row_finite, mat_finite};
ghost use Rattle.factors.specs.Check.{Size, larger, largest_of, largest_in, not_below, accepted_of};

use crate::Factors;

// The size of x.
fn magnitude(x: f64) -> f64
    ensures { finite x ≡ true → Size (mag x) result }
{
    if x < 0.0 { -x } else { x }
}

// The larger of two that are at least 0.
fn larger(a: f64, b: f64) -> f64
    ensures { Size (mag a) a → Size (mag b) b → Size (larger (mag a) (mag b)) result }
{
    if a < b { b } else { a }
}

fn largest_of(a: [f64; 3]) -> f64
    ensures { row_finite a ≡ true → Size (largest_of a) result }
{
    larger(larger(magnitude(a[0]), magnitude(a[1])), magnitude(a[2]))
}

// The largest size of an entry, where all are finite.
pub(crate) fn largest(m: [[f64; 3]; 3]) -> f64
    ensures { mat_finite m ≡ true → Size (largest_in m) result }
{
    larger(larger(largest_of(m[0]), largest_of(m[1])), largest_of(m[2]))
}

fn not_below(s: [f64; 3]) -> bool
    ensures { result ≡ not_below s }
{
    (0.0 <= s[0]) & (0.0 <= s[1]) & (0.0 <= s[2])
}

// Whether a test in floats shows that the factors of f pass the check; m is the largest size in f.
fn surely(f: [[f64; 3]; 3], x: Factors, m: f64) -> bool
    ensures { result ≡ true → (mat_finite f ≡ true → mag m ≡ largest_in f) → accepted_of f x ≡ true }
{
    let p = x.u;
    let q = x.vt;
    let s = x.sigma;
    let u = tensor::of_rows(p);
    let v = tensor::transpose(tensor::of_rows(q));
    not_below(s)
        & nearness::surely_near(u, s, v, f, m)
        & nearness::surely_orthogonal(u)
        & nearness::surely_orthogonal(v)
}

// The same without a doubt.
fn exactly(f: [[f64; 3]; 3], x: Factors, m: f64) -> bool
    ensures { (mat_finite f ≡ true → mag m ≡ largest_in f) → result ≡ accepted_of f x }
{
    let p = x.u;
    let q = x.vt;
    let s = x.sigma;
    let u = tensor::of_rows(p);
    let v = tensor::transpose(tensor::of_rows(q));
    tensor::mat_finite(f)
        & tensor::rows_finite(p)
        & tensor::row_finite(s)
        & tensor::rows_finite(q)
        & not_below(s)
        & nearness::near_all(u, s, v, f, m)
        & nearness::orthogonal(u)
        & nearness::orthogonal(v)
}

// Whether the factors of f pass the check.
pub fn accepted(f: [[f64; 3]; 3], x: Factors) -> bool
    ensures { result ≡ accepted_of f x }
{
    let m = largest(f);
    if surely(f, x, m) {
        return true;
    }
    exactly(f, x, m)
}
