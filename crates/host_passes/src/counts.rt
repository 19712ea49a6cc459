// A pass's counts into a lent list of their number.
ghost use Rattle.std.specs.Prelude.{◌≡◌, length};
ghost use Rattle.host_passes.specs.Inner.{passed_code, passed_counts, failure_code, failure_counts};

use one_record::copy;
use particles::{Passed, PassedWithFailure};

pub fn put_counts(passed: Passed, counts: &mut [u64]) -> u8
    requires { length counts.old ≡ 3 }
    ensures value { result ≡ passed_code passed }
    ensures counts_after { counts.new ≡ passed_counts passed counts.old }
{
    match passed {
        Passed::Done(c) => {
            copy(
                &[c.untouched as u64, c.stored as u64, c.refused as u64],
                counts,
            );
            0
        }
        Passed::Refused(n) => n,
    }
}

pub fn put_failure_counts(passed: PassedWithFailure, counts: &mut [u64]) -> u8
    requires { length counts.old ≡ 4 }
    ensures value { result ≡ failure_code passed }
    ensures counts_after { counts.new ≡ failure_counts passed counts.old }
{
    match passed {
        PassedWithFailure::Done(c) => {
            copy(
                &[
                    c.untouched as u64,
                    c.stored as u64,
                    c.refused as u64,
                    c.failed as u64,
                ],
                counts,
            );
            0
        }
        PassedWithFailure::Refused(n) => n,
    }
}
