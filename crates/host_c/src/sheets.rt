// A sheet of bytes: read, run to its answers, or written.
ghost use Rattle.std.specs.Prelude.{◌≡◌, [], ◌∷◌};
ghost use Rattle.host_lists.specs.Called.{called};
ghost use Rattle.host_sheets.specs.Sheets.{read_by, run_by, write_by};

#[unsafe(no_mangle)]
pub extern "C" fn pasoletu_read_sheet(bytes: &[u8], header: &mut [u64], records: &mut [u64]) -> u8
    ensures { called result (header.new ∷ records.new ∷ []) ≡ read_by bytes.now header.old records.old }
{
    host_sheets::pasoletu_read_sheet(bytes, header, records)
}

#[unsafe(no_mangle)]
pub extern "C" fn pasoletu_run_sheet(
    bytes: &[u8],
    records: &mut [u64],
    answers: &mut [u64],
    counts: &mut [u64],
) -> u8
    ensures { called result (records.new ∷ answers.new ∷ counts.new ∷ []) ≡ run_by bytes.now records.old answers.old counts.old }
{
    host_sheets::pasoletu_run_sheet(bytes, records, answers, counts)
}

#[unsafe(no_mangle)]
pub extern "C" fn pasoletu_write_sheet(
    model: u64,
    parameters: &[u64],
    records: &[u64],
    bytes: &mut [u8],
    written: &mut [u64],
) -> u8
    ensures { called result (bytes.new ∷ written.new ∷ []) ≡ write_by model parameters.now records.now bytes.old written.old }
{
    host_sheets::pasoletu_write_sheet(model, parameters, records, bytes, written)
}
