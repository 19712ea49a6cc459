// Answers into a host's room: 8 where the room has another length, else the refusal's number, and nothing is written; else 0.
ghost use Rattle.std.specs.Prelude.{◌≡◌, [], ◌∷◌};
ghost use Rattle.host_lists.specs.Called.{called};
ghost use Rattle.host_lists.specs.Out.{number_in, pair_in, vector_in, matrix_in, verdict_word, judged_in};

use answers::{Answer, Pair};
use solid::StressVerdict;
use tensor::{MatrixAnswer, VectorAnswer};

pub fn put(a: Answer, out: &mut [u64]) -> u8
    ensures { called result (out.new ∷ []) ≡ number_in a out.old }
{
    if out.len() != 1 {
        return answers::LENGTH;
    }
    match a {
        Answer::Value(v) => {
            out[0] = numbers::bits_of(v);
            0
        }
        Answer::Refused(n) => n,
    }
}

pub fn put_pair(a: Pair, out: &mut [u64]) -> u8
    ensures { called result (out.new ∷ []) ≡ pair_in a out.old }
{
    if out.len() != 2 {
        return answers::LENGTH;
    }
    match a {
        Pair::Values(x, y) => {
            out[0] = numbers::bits_of(x);
            out[1] = numbers::bits_of(y);
            0
        }
        Pair::Refused(n) => n,
    }
}

pub fn put_vector(a: VectorAnswer, out: &mut [u64]) -> u8
    ensures { called result (out.new ∷ []) ≡ vector_in a out.old }
{
    if out.len() != 3 {
        return answers::LENGTH;
    }
    let n = a.refusal;
    if n != 0 {
        return n;
    }
    let v = a.vector;
    record::write_row(out, 0, v);
    0
}

pub fn put_matrix(a: MatrixAnswer, out: &mut [u64]) -> u8
    ensures { called result (out.new ∷ []) ≡ matrix_in a out.old }
{
    if out.len() != 9 {
        return answers::LENGTH;
    }
    let refusal = a.refusal;
    if refusal != 0 {
        return refusal;
    }
    let m = a.matrix;
    record::write_rows(out, 0, m);
    0
}

// 1 for yes and 0 for no, as whole numbers.
fn verdict_word(failed: bool) -> u64
    ensures { result ≡ verdict_word failed }
{
    if failed { 1 } else { 0 }
}

// A stress into one room and its verdict into another: both are written or neither.
pub fn put_judged(a: StressVerdict, stress: &mut [u64], verdict: &mut [u64]) -> u8
    ensures { called result (stress.new ∷ verdict.new ∷ []) ≡ judged_in a stress.old verdict.old }
{
    if stress.len() != 9 {
        return answers::LENGTH;
    }
    if verdict.len() != 1 {
        return answers::LENGTH;
    }
    let refusal = a.refusal;
    if refusal != 0 {
        return refusal;
    }
    let m = a.stress;
    record::write_rows(stress, 0, m);
    verdict[0] = verdict_word(a.failed);
    0
}
