// A sheet run and written again: its model and parameters as they came, its records as the pass left them (RULES, section 7).
ghost use Rattle.std.specs.Prelude.{◌≡◌, ◌*◌, ◌≤◌, length};
ghost use Rattle.model.specs.Kinds.{kinds_of};
ghost use Rattle.record.specs.Layout.{floats};
ghost use Rattle.sheet_run.specs.Run.{ran_records, ran_answers};
ghost use Rattle.sheet_run.specs.Out.{front_written, front_room, out_of, out_room};

use sheet::Header;
use writer::Written;

// The sheet of a header and of the records at the front of the list.
fn write_front(h: Header, records: &[u64], room: &mut [u8]) -> Written
    requires { (h.count * floats ≤ length records.now) × (length (kinds_of h.model) ≤ length h.parameters) }
    ensures value { result ≡ front_written h records.now (length room.old) }
    ensures room_after { room.new ≡ front_room h records.now room.old }
{
    let parameters = h.parameters;
    let n = model::parameters_of(h.model);
    let words = h.count * record::FLOATS;
    writer::write(h.model, &parameters[..n], &records[..words], room)
}

// Runs the sheet s, as `run_sheet` does, and writes it with its updated records into the room; a refused particle stands
// there with the bits that it had. A refusal of the run is the answer, and then the room keeps its bytes.
pub fn run_out(s: &[u8], records: &mut [u64], answers: &mut [u64], room: &mut [u8]) -> Written
    ensures value { result ≡ out_of s.now records.old answers.old (length room.old) }
    ensures room_after { room.new ≡ out_room s.now records.old answers.old room.old }
    ensures records_after { records.new ≡ ran_records s.now records.old answers.old }
    ensures answers_after { answers.new ≡ ran_answers s.now records.old answers.old }
{
    let ran = crate::run_sheet(s, records, answers);
    if ran.refusal != 0 {
        return Written::Refused(ran.refusal);
    }
    let h = reader::header(s);
    write_front(h, records, room)
}
