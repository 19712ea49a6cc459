// A test in floats that is never passed by sums that aren't near: almost all that are near pass it.
ghost use Rattle.std.specs.Prelude.{◌≡◌, true};
ghost use Rattle.exact.specs.Units.{mag, Fin64};
ghost use Rattle.nearness.specs.Near.{near, near_row};
ghost use Rattle.nearness.specs.Quick.{Tame, Bounded, RowBounded, RowsBounded, Sound, SoundRow, SurelyNear, SurelyOrthogonal, two};

// 2^-1000 and 2^60: beyond them the exact sum decides.
const LOWEST: f64 = 9.332636185032189e-302;

const HIGHEST: f64 = 1.152921504606847e18;

// 2^-42.
const TINY: f64 = 2.2737367544323206e-13;

fn tame(m: f64) -> bool
    ensures { result ≡ true → Fin64 m × Tame (mag m) }
{
    (LOWEST <= m) & (m <= HIGHEST)
}

// Whether x lies from -t to t.
fn bounded(x: f64, t: f64) -> bool
    ensures { result ≡ true → Fin64 t → Bounded x t }
{
    (-t <= x) & (x <= t)
}

fn bounded_row(a: [f64; 3], t: f64) -> bool
    ensures { result ≡ true → Fin64 t → RowBounded a t }
{
    bounded(a[0], t) & bounded(a[1], t) & bounded(a[2], t)
}

fn bounded_rows(m: [[f64; 3]; 3], t: f64) -> bool
    ensures { result ≡ true → Fin64 t → RowsBounded m t }
{
    bounded_row(m[0], t) & bounded_row(m[1], t) & bounded_row(m[2], t)
}

// Whether the sum of the products u s v, as worked, lies within m / 2^42 of f: rounding moves it by less than m / 2^44.
fn close(u: [f64; 3], s: [f64; 3], v: [f64; 3], f: f64, m: f64) -> bool
    ensures { result ≡ true → Sound u s v m → Bounded f m → near u s v f (mag m) ≡ true }
{
    let d = s[0] * u[0] * v[0] + s[1] * u[1] * v[1] + s[2] * u[2] * v[2] + -f;
    bounded(d, m * TINY)
}

fn row_close(u: [f64; 3], s: [f64; 3], v: [[f64; 3]; 3], f: [f64; 3], m: f64) -> bool
    ensures { result ≡ true → SoundRow u s v m → RowBounded f m → near_row u s v f (mag m) ≡ true }
{
    close(u, s, v[0], f[0], m) & close(u, s, v[1], f[1], m) & close(u, s, v[2], f[2], m)
}

// Where this is true and the entries of u and v are at most 2, so is `near_all`. What it asks of a whole matrix is tested once.
pub fn surely_near(
    u: [[f64; 3]; 3],
    s: [f64; 3],
    v: [[f64; 3]; 3],
    f: [[f64; 3]; 3],
    m: f64,
) -> bool
    ensures { result ≡ true → RowsBounded u two → RowsBounded v two → SurelyNear u s v f m }
{
    tame(m)
        & bounded_row(s, (m + m) + (m + m))
        & bounded_rows(f, m)
        & row_close(u[0], s, v, f[0], m)
        & row_close(u[1], s, v, f[1], m)
        & row_close(u[2], s, v, f[2], m)
}

// Where this is true, so is `orthogonal`, and the entries are at most 2.
pub fn surely_orthogonal(u: [[f64; 3]; 3]) -> bool
    ensures { result ≡ true → SurelyOrthogonal u }
{
    let ones = [1.0, 1.0, 1.0];
    let a = u[0];
    let b = u[1];
    let c = u[2];
    bounded_rows(u, 2.0)
        & close(a, ones, a, 1.0, 1.0)
        & close(a, ones, b, 0.0, 1.0)
        & close(a, ones, c, 0.0, 1.0)
        & close(b, ones, b, 1.0, 1.0)
        & close(b, ones, c, 0.0, 1.0)
        & close(c, ones, c, 1.0, 1.0)
}
