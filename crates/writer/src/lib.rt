// The writer, record to file, and the normaliser, accepted file to the written form of its record. A refusal changes no byte of the output.
#![tactic(auto)]

ghost use Rattle.layout.specs.Layouts.{size_of};
ghost use Rattle.text_lines.specs.Places.{Placed, column_in};
ghost use Rattle.reader.specs.Reader.{read_of};
ghost use Rattle.text.specs.Puts.{buffer_of};
ghost use Rattle.value.specs.Texts.{rooms_in};
ghost use Rattle.writer.specs.Copied.{all_written, Copies};
ghost use Rattle.writer.specs.Writer.{fitted, write_of, left_by, normalise_of, normal_left, written_by};
ghost use Rattle.writer_form.specs.Held.{Held};
ghost use Rattle.writer_form.specs.Written.{written_of, values_in, message_text};
ghost use Rattle.std.specs.Prelude.{length, ◌≡◌};

use layout::{Layout, fields};
use record::{Cell, Record};
use refusal::Refusal;
use text_lines::Span;
use value::Rooms;
use writer_message::put_message;

// The file of a message, or 11 where there is no room for it. No file is longer than 8,192 bytes, so a buffer of that size is written at once; for a
// smaller one the length is asked first, on no byte of it, and then it is written into as many.
fn put_file(
    l: Layout,
    cells: [Cell; 26],
    rooms: Rooms<'_>,
    out: &mut [u8],
) -> Result<usize, Refusal>
    requires { Held l (rooms_in rooms) cells }
    ensures { (written_by result ≡ fitted (message_text l (rooms_in rooms.entry) cells) (length out.old))
        × (out.new ≡ buffer_of out.old 0 (message_text l (rooms_in rooms.entry) cells)) }
{
    let room = out.len();
    if 8192 <= room {
        let whole = put_message(out, 0, l, cells, rooms);
        return Ok(whole);
    }
    let len = put_message(&mut out[0..0], 0, l, cells, rooms);
    if room < len {
        return Err(Refusal::NoRoom(len));
    }
    let put = put_message(&mut out[0..len], 0, l, cells, rooms);
    Ok(put)
}

// The same of a file whose texts can be put as they stand.
fn put_copied(
    l: Layout,
    file: &[u8],
    row: Span,
    places: [Span; 27],
    out: &mut [u8],
) -> Result<usize, Refusal>
    requires { Copies l file.now row places }
    ensures { (written_by result ≡ fitted (written_of l (column_in (size_of l) file.now places)) (length out.old))
        × (out.new ≡ buffer_of out.old 0 (written_of l (column_in (size_of l) file.now places))) }
{
    let room = out.len();
    if 8192 <= room {
        return Ok(writer_message::put_copied(out, 0, l, file, row, places));
    }
    let length = writer_message::put_copied(&mut out[0..0], 0, l, file, row, places);
    if room < length {
        return Err(Refusal::NoRoom(length));
    }
    Ok(writer_message::put_copied(&mut out[0..length], 0, l, file, row, places))
}

// Writes a record: refused 12 where it is invalid, then 11.
pub fn write(r: Record, out: &mut [u8]) -> Result<usize, Refusal>
    ensures { (written_by result ≡ write_of r (length out.old)) × (out.new ≡ left_by r out.old) }
{
    if !record_check::is_valid(r) {
        return Err(Refusal::InvalidRecord);
    }
    let l = r.layout;
    let cells = r.cells;
    let rooms = Rooms {
        unit: &r.unit,
        reason: &r.reason,
        note: &r.note,
        gradients: r.gradients,
    };
    put_file(l, cells, rooms, out)
}

// Whether each value stands in the file as it is written.
fn stands_written(l: Layout, cells: &[Cell; 26], file: &[u8], places: &[Span; 27]) -> bool
    requires { Placed (size_of l) file.now places.now }
    ensures { result ≡ all_written (values_in l cells.now) (column_in (size_of l) file.now places.now) }
{
    for k in 0..layout::size(l) {
        let w = places[k + 1];
        let from = w.from as usize;
        let to = w.to as usize;
        if !value_put::is_written(cells[k].value, &file[from..to]) {
            return false;
        }
    }
    true
}

// Brings a file to the written form of its record: the reader's refusals, then 11. Where each value stands as it is written the file's own texts are
// copied, and else the values are rendered, with the record's texts taken from the file itself.
pub fn normalise(
    ca: u32,
    ioa: u32,
    plan: &[u8],
    file: &[u8],
    out: &mut [u8],
) -> Result<usize, Refusal>
    ensures { (written_by result ≡ normalise_of (read_of ca ioa plan.now file.now) (length out.old))
        × (out.new ≡ normal_left (read_of ca ioa plan.now file.now) out.old) }
{
    let x = reader::judged(ca, ioa, plan, file)?;
    let l = x.layout;
    let places = x.places;
    if stands_written(l, &x.cells, file, &places) {
        let row = x.row;
        return put_copied(l, file, row, places, out);
    }
    let cells = x.cells;
    let rooms = Rooms {
        unit: reader_fill::text_at(l, file, places, fields::UNIT),
        reason: reader_fill::text_at(l, file, places, fields::reason_field(l)),
        note: reader_fill::text_at(l, file, places, fields::note_field(l)),
        gradients: x.gradients,
    };
    put_file(l, cells, rooms, out)
}
