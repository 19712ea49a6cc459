// A stress, its principal values and the verdict on these as one answer.
ghost use Rattle.std.specs.Prelude.{◌≡◌};
ghost use Rattle.solid.specs.Judged.{refused_judged, with_verdict, judged_of};

use crate::StressVerdict;
use failure_maximum_stress::{MaximumStressFailure, Verdict};
use tensor::{MatrixAnswer, Rows};

// The refusal by the number n.
pub fn refused_judged(n: u8) -> StressVerdict
    ensures { result ≡ refused_judged n }
{
    let z = [0.0, 0.0, 0.0];
    let zeros = Rows {
        r0: z,
        r1: z,
        r2: z,
    };
    StressVerdict {
        refusal: n,
        stress: zeros,
        failed: false,
    }
}

fn with_verdict(stress: Rows, v: Verdict) -> StressVerdict
    ensures { result ≡ with_verdict stress v }
{
    match v {
        Verdict::No => StressVerdict {
            refusal: 0,
            stress,
            failed: false,
        },
        Verdict::Yes => StressVerdict {
            refusal: 0,
            stress,
            failed: true,
        },
        Verdict::Refused(n) => refused_judged(n),
    }
}

// What follows once the stress is asked: its own refusal, then 14 where its principal values miss their check, then the verdict on them.
pub(crate) fn judged(limits: MaximumStressFailure, a: MatrixAnswer) -> StressVerdict
    ensures { result ≡ judged_of limits a }
{
    let own = a.refusal;
    if own == 0 {
        let m = a.matrix;
        let p = factors::principals(tensor::of_rows(m));
        let missed = p.refusal;
        if missed == 0 {
            let v = p.vector;
            with_verdict(m, limits.particle_failed(v))
        } else {
            refused_judged(missed)
        }
    } else {
        refused_judged(own)
    }
}
