// The written form of a message, put into a lent buffer: what there is room for is written, and the answer is the place past it.
#![tactic(auto)]

ghost use Rattle.std.specs.Prelude.{◌+◌, ◌≤◌, ◌<◌, length};
ghost use Rattle.layout.specs.Layouts.{size_of};
ghost use Rattle.layout.specs.Rows.{row_of};
ghost use Rattle.text_lines.specs.Places.{HoldsText, Placed, column_in};
ghost use Rattle.text.specs.Puts.{limit, Puts};
ghost use Rattle.value.specs.Texts.{rooms_in};
ghost use Rattle.writer_form.specs.Held.{Held};
ghost use Rattle.writer_form.specs.Written.{written_of, message_text};

use layout::Layout;
use record::Cell;
use text::put;
use text_lines::Span;
use value::Rooms;

// A message of a layout: banner, an empty line, its parameter lines, and its row between separators.
pub fn put_message(
    out: &mut [u8],
    at: usize,
    l: Layout,
    cells: [Cell; 26],
    rooms: Rooms<'_>,
) -> usize
    requires { (at + 200000 < limit) × Held l (rooms_in rooms) cells }
    ensures { Puts out.old at (message_text l (rooms_in rooms.entry) cells) result out.new }
{
    let head = layout_banner::put(out, at, l);
    let body = put::put_byte(out, head, b'\n');
    let above = writer_lines::put_lines(out, body, l, cells, rooms);
    let from = put::put_text(out, above, b"+++++\n");
    let to = writer_row::put_row(out, from, l, cells, rooms);
    put::put_text(out, to, b"\n+++++\n")
}

// The same of a layout with the texts that stand at their places of a file, and the file's own row, which is theirs.
pub fn put_copied(
    out: &mut [u8],
    at: usize,
    l: Layout,
    file: &[u8],
    row: Span,
    places: [Span; 27],
) -> usize
    requires { (at + 400000 < limit) × Placed (size_of l) file.now places × (length file.now ≤ 8192)
        × HoldsText file.now row (row_of l (column_in (size_of l) file.now places)) }
    ensures { Puts out.old at (written_of l (column_in (size_of l) file.now places)) result out.new }
{
    let head = layout_banner::put(out, at, l);
    let body = put::put_byte(out, head, b'\n');
    let listed = writer_lines::put_text_lines(out, body, l, file, places);
    let from = put::put_text(out, listed, b"+++++\n");
    let a = row.from as usize;
    let z = row.to as usize;
    let past = put::put_text(out, from, &file[a..z]);
    put::put_text(out, past, b"\n+++++\n")
}
