// The night in whole numbers: a report over up to 4,096 records, and two reports put together (RULES, section 7).
#![tactic(auto)]

mod column;
mod whole;

ghost use Rattle.std.specs.Prelude.{◌≡◌};
ghost use Rattle.report.specs.Joined.{joined_of};
ghost use Rattle.report.specs.Report.{report_of};

pub use column::Column;

#[derive(Drop)]
pub struct Report {
    pub plastic_hardening: Column,
    pub elastic_hardening: Column,
    pub plastic_determinant: Column,
}

#[derive(Drop)]
pub enum Reported {
    Table(Report),
    Refused(u8),
}

// The report over a list of records. A list that is no whole number of records is refused by 8, then over 4,096 records by 16;
// no value is refused, NaN and infinities neither.
pub fn over(l: &[u64]) -> Reported
    ensures { result ≡ report_of l.now }
{
    let n = l.len() / record::FLOATS;
    if n * record::FLOATS == l.len() {
        if n as u64 <= column::MOST {
            Reported::Table(Report {
                plastic_hardening: column::at_place(l, record::PLASTIC_HARDENING, n),
                elastic_hardening: column::at_place(l, record::ELASTIC_HARDENING, n),
                plastic_determinant: column::at_place(l, record::PLASTIC_DETERMINANT, n),
            })
        } else {
            Reported::Refused(answers::TOO_LONG)
        }
    } else {
        Reported::Refused(answers::LENGTH)
    }
}

// Two reports put together: what the report over the joined list answers, 16 where the records together pass 4,096.
pub fn joined(a: Report, b: Report) -> Reported
    ensures { result ≡ joined_of a b }
{
    let ah = a.plastic_hardening;
    let bh = b.plastic_hardening;
    let ae = a.elastic_hardening;
    let be = b.elastic_hardening;
    let ad = a.plastic_determinant;
    let bd = b.plastic_determinant;
    if column::fit(ah, bh) & (column::fit(ae, be) & column::fit(ad, bd)) {
        Reported::Table(Report {
            plastic_hardening: column::join(ah, bh),
            elastic_hardening: column::join(ae, be),
            plastic_determinant: column::join(ad, bd),
        })
    } else {
        Reported::Refused(answers::TOO_LONG)
    }
}
