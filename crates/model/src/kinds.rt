// What a model's parameters are, by its number: floats, but for a flag.
ghost use Rattle.std.specs.Prelude.{◌≡◌, true, false, length, get_or};
ghost use Rattle.model.specs.Kinds.{law_of, kinds_of, allowed, flags_allowed, parameters_fit, model_known};

use crate::{LAST, Law, SET, rows};

// The law of a model.
pub fn law_of(number: u64) -> Law
    ensures { result ≡ law_of number }
{
    let k = rows::shape_of(number);
    k.law
}

// How many parameters a model has.
pub fn parameters_of(number: u64) -> usize
    ensures { result ≡ length (kinds_of number) }
{
    let k = rows::shape_of(number);
    k.count
}

// Whether parameter i is a flag.
pub fn is_flag_of(number: u64, i: usize) -> bool
    ensures { result ≡ get_or (kinds_of number) i false }
{
    let k = rows::shape_of(number);
    (k.flag < k.count) & (i == k.flag)
}

// A flag is told by its bits, so -0.0 is none.
pub fn is_flag(w: u64) -> bool
    ensures { result ≡ allowed true w }
{
    (w == 0) | (w == SET)
}

// Whether each flag among a model's parameters is one.
fn flags_allowed(number: u64, p: &[u64]) -> bool
    ensures { result ≡ flags_allowed 0 (kinds_of number) p.now }
{
    let k = rows::shape_of(number);
    (k.count <= k.flag) | is_flag(record::word(p, k.flag))
}

// Whether as many parameters are given as the model has: an unknown model has no number that they could miss.
pub fn fit(number: u64, p: &[u64]) -> bool
    ensures { result ≡ parameters_fit number p.now }
{
    (LAST < number) | (p.len() == parameters_of(number))
}

// Whether there is such a model, and its flags are flags.
pub fn known(number: u64, p: &[u64]) -> bool
    ensures { result ≡ model_known number p.now }
{
    (number <= LAST) & flags_allowed(number, p)
}
