ghost use Rattle.std.specs.Prelude.{◌≡◌};
ghost use Rattle.solid.specs.OfRecord.{refusal_of};

// What refuses a record before the law is asked, 0 where nothing does: its length, then a float of the law or of the record
// that isn't finite, then its stored determinant.
pub fn refusal(law_finite: bool, r: &[u64]) -> u8
    ensures { result ≡ refusal_of law_finite r.now }
{
    if r.len() == record::FLOATS {
        if law_finite & record::all_finite(r) {
            if record::determinant_right(r) {
                0
            } else {
                answers::WRONG_DETERMINANT
            }
        } else {
            answers::NOT_FINITE
        }
    } else {
        answers::LENGTH
    }
}
