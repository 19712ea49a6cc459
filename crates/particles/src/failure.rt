// The pass with failure over a lent list of records.
ghost use Rattle.std.specs.Prelude.{◌≡◌};
ghost use Rattle.one_record.specs.Judged.{failure_law};
ghost use Rattle.particles.specs.Pass.{passed_with_failure, pass_records, pass_answers};

use crate::list;
use crate::step::Step;
use elasticity_corotated_linear::CorotatedLinearElasticity;
use failure_maximum_stress::MaximumStressFailure;
use model::Model;

// How many records were left untouched, stored and refused, and how many of those not refused failed.
#[derive(Drop)]
pub struct FailureCounts {
    pub untouched: usize,
    pub stored: usize,
    pub refused: usize,
    pub failed: usize,
}

#[derive(Drop)]
pub enum PassedWithFailure {
    Done(FailureCounts),
    Refused(u8),
}

// The pass that judges each record after its law: with the limits l on the stress, by the corotated law e, of what the law leaves.
// A list that is no whole number of records, or an answer list of another length, is refused by 8 and nothing is written.
pub fn pass_with_failure(
    m: Model,
    l: MaximumStressFailure,
    e: CorotatedLinearElasticity,
    xs: &mut [u64],
    out: &mut [u64],
) -> PassedWithFailure
    ensures value { result ≡ passed_with_failure (failure_law m l e) xs.old out.old }
    ensures xs_after { xs.new ≡ pass_records (failure_law m l e) xs.old out.old }
    ensures out_after { out.new ≡ pass_answers (failure_law m l e) xs.old out.old }
{
    list::pass_by(Step::Judged(m, l, e), xs, out)
}
