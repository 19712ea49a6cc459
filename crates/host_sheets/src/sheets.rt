// A sheet of bytes: read, run to its answers, or written.
ghost use Rattle.std.specs.Prelude.{◌≡◌, [], ◌∷◌, length};
ghost use Rattle.host_lists.specs.Called.{called};
ghost use Rattle.host_sheets.specs.Sheets.{header_room, read_by, ran_counts, run_by, written_code, written_room, write_by};

use one_record::copy;
use sheet::Header;
use sheet_run::Ran;
use writer::Written;

// Model, the eight parameters, count, and the place of the first record.
fn put_header(h: Header, header: &mut [u64]) -> u8
    requires { length header.old ≡ 11 }
    ensures value { result ≡ h.refusal }
    ensures header_after { header.new ≡ header_room h header.old }
{
    if h.refusal == 0 {
        let p = h.parameters;
        copy(
            &[
                h.model,
                p[0],
                p[1],
                p[2],
                p[3],
                p[4],
                p[5],
                p[6],
                p[7],
                h.count as u64,
                h.at as u64,
            ],
            header,
        );
    }
    h.refusal
}

fn put_ran(ran: Ran, counts: &mut [u64]) -> u8
    requires { length counts.old ≡ 4 }
    ensures value { result ≡ ran.refusal }
    ensures counts_after { counts.new ≡ ran_counts ran counts.old }
{
    if ran.refusal == 0 {
        let c = ran.counts;
        copy(
            &[
                ran.particles as u64,
                c.untouched as u64,
                c.stored as u64,
                c.refused as u64,
            ],
            counts,
        );
    }
    ran.refusal
}

fn put_written(w: Written, written: &mut [u64]) -> u8
    requires { length written.old ≡ 1 }
    ensures value { result ≡ written_code w }
    ensures written_after { written.new ≡ written_room w written.old }
{
    match w {
        Written::Length(n) => {
            copy(&[n as u64], written);
            0
        }
        Written::Refused(n) => n,
    }
}

pub fn pasoletu_read_sheet(bytes: &[u8], header: &mut [u64], records: &mut [u64]) -> u8
    ensures { called result (header.new ∷ records.new ∷ []) ≡ read_by bytes.now header.old records.old }
{
    if header.len() != 11 {
        return answers::LENGTH;
    }
    let h = reader::read(bytes, records);
    put_header(h, header)
}

pub fn pasoletu_run_sheet(
    bytes: &[u8],
    records: &mut [u64],
    answers: &mut [u64],
    counts: &mut [u64],
) -> u8
    ensures { called result (records.new ∷ answers.new ∷ counts.new ∷ []) ≡ run_by bytes.now records.old answers.old counts.old }
{
    if counts.len() != 4 {
        return answers::LENGTH;
    }
    let ran = sheet_run::run_sheet(bytes, records, answers);
    put_ran(ran, counts)
}

pub fn pasoletu_write_sheet(
    model: u64,
    parameters: &[u64],
    records: &[u64],
    bytes: &mut [u8],
    written: &mut [u64],
) -> u8
    ensures { called result (bytes.new ∷ written.new ∷ []) ≡ write_by model parameters.now records.now bytes.old written.old }
{
    if written.len() != 1 {
        return answers::LENGTH;
    }
    let w = writer::write(model, parameters, records, bytes);
    put_written(w, written)
}
