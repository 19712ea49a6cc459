// A sheet that comes in parts, its state in a lent list of words.
ghost use Rattle.std.specs.Prelude.{◌≡◌, [], ◌∷◌};
ghost use Rattle.host_lists.specs.Called.{called};
ghost use Rattle.host_sheets.specs.Parts.{begin_by, part_by, end_by};

pub fn pasoletu_begin_parts(state: &mut [u64]) -> u8
    ensures { called result (state.new ∷ []) ≡ begin_by state.old }
{
    parts_words::begin(state)
}

pub fn pasoletu_part(
    bytes: &[u8],
    state: &mut [u64],
    records: &mut [u64],
    answers: &mut [u64],
    progress: &mut [u64],
) -> u8
    ensures { called result (state.new ∷ records.new ∷ answers.new ∷ progress.new ∷ []) ≡ part_by bytes.now state.old records.old answers.old progress.old }
{
    parts_words::part(bytes, state, records, answers, progress)
}

pub fn pasoletu_end_parts(
    records: &[u64],
    answers: &[u64],
    state: &mut [u64],
    progress: &mut [u64],
) -> u8
    ensures { called result (state.new ∷ progress.new ∷ []) ≡ end_by records.now answers.now state.old progress.old }
{
    parts_words::end(records, answers, state, progress)
}
