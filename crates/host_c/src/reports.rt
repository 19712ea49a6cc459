// The report over a list of records, and two reports put together.
ghost use Rattle.std.specs.Prelude.{◌≡◌, [], ◌∷◌};
ghost use Rattle.host_lists.specs.Called.{called};
ghost use Rattle.host_sheets.specs.Reports.{report_by, join_by};

#[unsafe(no_mangle)]
pub extern "C" fn pasoletu_report(records: &[u64], report: &mut [u64]) -> u8
    ensures { called result (report.new ∷ []) ≡ report_by records.now report.old }
{
    host_sheets::pasoletu_report(records, report)
}

#[unsafe(no_mangle)]
pub extern "C" fn pasoletu_join_reports(first: &[u64], second: &[u64], joined: &mut [u64]) -> u8
    ensures { called result (joined.new ∷ []) ≡ join_by first.now second.now joined.old }
{
    host_sheets::pasoletu_join_reports(first, second, joined)
}
