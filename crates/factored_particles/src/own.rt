// Our own factors over a lent record and a lent list of records, by themselves or before the law (RULES, section 7).
ghost use Rattle.std.specs.Prelude.{◌≡◌, ◌&&◌};
ghost use Rattle.model.specs.Model.{model_finite};
ghost use Rattle.one_record.specs.RecordLaw.{record_law};
ghost use Rattle.one_record.specs.Judged.{judge_finite, failure_law};
ghost use Rattle.factored_particles.specs.Factored.{factor_law, factored_law, factor_outcome, factor_after};
ghost use Rattle.particles.specs.Pass.{passed, passed_with_failure, pass_records, pass_answers};

use crate::step::FactoredStep;
use crate::{factored, list};
use elasticity_corotated_linear::CorotatedLinearElasticity;
use failure_maximum_stress::MaximumStressFailure;
use model::Model;
use particles::{Passed, PassedWithFailure, Step};
use plasticity::Outcome;

// One record by itself. A list of another length is refused by 8 and keeps its bits.
pub fn factor_record(r: &mut [u64]) -> Outcome
    ensures value { result ≡ factor_outcome r.old }
    ensures r_after { r.new ≡ factor_after r.old }
{
    if r.len() == record::FLOATS {
        return factored::alone(r);
    }
    Outcome::Refused(answers::LENGTH)
}

// Each record of a list, with two answers as a pass has them.
pub fn factor_list(xs: &mut [u64], out: &mut [u64]) -> Passed
    ensures value { result ≡ passed factor_law xs.old out.old }
    ensures xs_after { xs.new ≡ pass_records factor_law xs.old out.old }
    ensures out_after { out.new ≡ pass_answers factor_law xs.old out.old }
{
    particles::three(list::pass_by(FactoredStep::Factors, xs, out))
}

// The pass that factors each record first.
pub fn pass_factored(m: Model, xs: &mut [u64], out: &mut [u64]) -> Passed
    ensures value { result ≡ passed (factored_law (model_finite m) (record_law m)) xs.old out.old }
    ensures xs_after { xs.new ≡ pass_records (factored_law (model_finite m) (record_law m)) xs.old out.old }
    ensures out_after { out.new ≡ pass_answers (factored_law (model_finite m) (record_law m)) xs.old out.old }
{
    particles::three(list::pass_by(FactoredStep::First(Step::Plain(m)), xs, out))
}

// And the pass with failure that does.
pub fn pass_factored_with_failure(
    m: Model,
    l: MaximumStressFailure,
    e: CorotatedLinearElasticity,
    xs: &mut [u64],
    out: &mut [u64],
) -> PassedWithFailure
    ensures value { result ≡ passed_with_failure (factored_law (model_finite m && judge_finite l e) (failure_law m l e)) xs.old out.old }
    ensures xs_after { xs.new ≡ pass_records (factored_law (model_finite m && judge_finite l e) (failure_law m l e)) xs.old out.old }
    ensures out_after { out.new ≡ pass_answers (factored_law (model_finite m && judge_finite l e) (failure_law m l e)) xs.old out.old }
{
    list::pass_by(FactoredStep::First(Step::Judged(m, l, e)), xs, out)
}
