// The report over a list of records, and two reports put together.
ghost use Rattle.std.specs.Prelude.{◌≡◌, [], ◌∷◌, ◌≤◌, length};
ghost use Rattle.host_lists.specs.Called.{called};
ghost use Rattle.host_sheets.specs.Reports.{column_at, report_at, reported_in, report_by, join_by};

use one_record::copy;
use report::{Column, Report, Reported};

// The six numbers of a column from a place on.
fn column_at(l: &[u64], at: usize) -> Column
    requires { at ≤ 12 }
    ensures { result ≡ column_at l.now at }
{
    Column {
        count: record::word(l, at),
        least: record::word(l, at + 1),
        greatest: record::word(l, at + 2),
        total: record::word(l, at + 3),
        outside: record::word(l, at + 4),
        not_finite: record::word(l, at + 5),
    }
}

fn report_at(l: &[u64]) -> Report
    ensures { result ≡ report_at l.now }
{
    Report {
        plastic_hardening: column_at(l, 0),
        elastic_hardening: column_at(l, 6),
        plastic_determinant: column_at(l, 12),
    }
}

fn put_reported(r: Reported, room: &mut [u64]) -> u8
    requires { length room.old ≡ 18 }
    ensures { called result (room.new ∷ []) ≡ reported_in r room.old }
{
    match r {
        Reported::Table(t) => {
            let h = t.plastic_hardening;
            let e = t.elastic_hardening;
            let d = t.plastic_determinant;
            copy(
                &[
                    h.count,
                    h.least,
                    h.greatest,
                    h.total,
                    h.outside,
                    h.not_finite,
                    e.count,
                    e.least,
                    e.greatest,
                    e.total,
                    e.outside,
                    e.not_finite,
                    d.count,
                    d.least,
                    d.greatest,
                    d.total,
                    d.outside,
                    d.not_finite,
                ],
                room,
            );
            0
        }
        Reported::Refused(n) => n,
    }
}

pub fn pasoletu_report(records: &[u64], report: &mut [u64]) -> u8
    ensures { called result (report.new ∷ []) ≡ report_by records.now report.old }
{
    if report.len() != 18 {
        return answers::LENGTH;
    }
    let r = report::over(records);
    put_reported(r, report)
}

pub fn pasoletu_join_reports(first: &[u64], second: &[u64], joined: &mut [u64]) -> u8
    ensures { called result (joined.new ∷ []) ≡ join_by first.now second.now joined.old }
{
    if (first.len() == 18) & (second.len() == 18) & (joined.len() == 18) {
        let r = report::joined(report_at(first), report_at(second));
        return put_reported(r, joined);
    }
    answers::LENGTH
}
