// Our own factors by themselves: of a record, and of each record of a list.
ghost use Rattle.std.specs.Prelude.{◌≡◌, [], ◌∷◌};
ghost use Rattle.host_lists.specs.Called.{called};
ghost use Rattle.host_passes.specs.Passes.{factors_by};
ghost use Rattle.host_passes.specs.Update.{factor_by};

#[unsafe(no_mangle)]
pub extern "C" fn pasoletu_factor(r: &mut [u64]) -> u8
    ensures { called result (r.new ∷ []) ≡ factor_by r.old }
{
    host_passes::pasoletu_factor(r)
}

#[unsafe(no_mangle)]
pub extern "C" fn pasoletu_factor_list(
    records: &mut [u64],
    answers: &mut [u64],
    counts: &mut [u64],
) -> u8
    ensures { called result (records.new ∷ answers.new ∷ counts.new ∷ []) ≡ factors_by records.old answers.old counts.old }
{
    host_passes::pasoletu_factor_list(records, answers, counts)
}
