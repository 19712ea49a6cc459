ghost use Rattle.std.specs.Prelude.{◌≡◌, length};
ghost use Rattle.record_why.specs.Why.{place_in};

// The place of the first float that isn't finite, from 0; the length where there is none.
pub fn place(w: &[u64]) -> usize
    ensures { result ≡ place_in w.now (length w.now) }
{
    w.iter()
        .position(|x| !record::word_finite(*x))
        .unwrap_or(w.len())
}
