// The parameter lines of a message, put into a lent buffer: what there is room for is written, and the answer is the place past it.
#![tactic(auto)]

ghost use Rattle.std.specs.Prelude.{◌+◌, ◌≤◌, ◌<◌, length, [], ◌∷◌, map};
ghost use Rattle.layout.specs.Layouts.{label_at, labels_of, size_of, type_of};
ghost use Rattle.text_lines.specs.Places.{Placed, column_in};
ghost use Rattle.text.specs.Puts.{limit, Puts};
ghost use Rattle.value.specs.Texts.{rooms_in, value_text};
ghost use Rattle.writer_form.specs.Held.{Spoken, Held};
ghost use Rattle.writer_form.specs.Written.{lines_text, after_equals, param_line, param_lines, values_in};

use layout::Layout;
use record::Cell;
use text::put;
use text_lines::Span;
use value::{Rooms, Value};
use value_name::MessageType;

// What stands after `=`: unless the value is blank, a space and the value.
fn put_after(out: &mut [u8], at: usize, t: MessageType, v: Value, rooms: Rooms<'_>) -> usize
    requires { (at + 2500 < limit) × Spoken t (rooms_in rooms) v }
    ensures { Puts out.old at (after_equals (value_text t (rooms_in rooms.entry) v)) result out.new }
{
    if !value_ask::is_filled(v) {
        return at;
    }
    let from = put::put_byte(out, at, b' ');
    value_put::put_value(out, from, t, v, rooms)
}

// The line of the field k with its value, and its end.
fn put_line(out: &mut [u8], at: usize, l: Layout, k: usize, v: Value, rooms: Rooms<'_>) -> usize
    requires { (at + 3000 < limit) × (1 ≤ k) × (k ≤ size_of l) × Spoken (type_of l) (rooms_in rooms) v }
    ensures { Puts out.old at (lines_text (param_line (label_at l k) (value_text (type_of l) (rooms_in rooms.entry) v) ∷ [])) result out.new }
{
    let padded = layout_label::put(out, at, layout_label::of_field(l, k));
    let equals = put::put_byte(out, padded, b'=');
    let said = put_after(out, equals, layout::type_of(l), v, rooms);
    put::put_byte(out, said, b'\n')
}

// The lines of all fields, in printed order.
pub fn put_lines(out: &mut [u8], at: usize, l: Layout, cells: [Cell; 26], rooms: Rooms<'_>) -> usize
    requires { (at + 90000 < limit) × Held l (rooms_in rooms) cells }
    ensures { Puts out.old at (lines_text (param_lines (labels_of l) (map (value_text (type_of l) (rooms_in rooms.entry)) (values_in l cells))))
        result out.new }
{
    let mut p = at;
    for k in 0..layout::size(l) {
        p = put_line(out, p, l, k + 1, cells[k].value, rooms);
    }
    p
}

// The line of the field k with the text of its value, and its end.
fn put_text_line(out: &mut [u8], at: usize, l: Layout, k: usize, text: &[u8]) -> usize
    requires { (at + 9000 < limit) × (1 ≤ k) × (k ≤ size_of l) × (length text.now ≤ 8192) }
    ensures { Puts out.old at (lines_text (param_line (label_at l k) text.now ∷ [])) result out.new }
{
    let named = layout_label::put(out, at, layout_label::of_field(l, k));
    let equals = put::put_byte(out, named, b'=');
    if text.len() == 0 {
        return put::put_byte(out, equals, b'\n');
    }
    let from = put::put_byte(out, equals, b' ');
    let said = put::put_text(out, from, text);
    put::put_byte(out, said, b'\n')
}

// The lines of all fields, in printed order, with the texts that stand at their places of a file.
pub fn put_text_lines(
    out: &mut [u8],
    at: usize,
    l: Layout,
    file: &[u8],
    places: [Span; 27],
) -> usize
    requires { (at + 300000 < limit) × Placed (size_of l) file.now places × (length file.now ≤ 8192) }
    ensures { Puts out.old at (lines_text (param_lines (labels_of l) (column_in (size_of l) file.now places))) result out.new }
{
    let mut p = at;
    for k in 0..layout::size(l) {
        let w = places[k + 1];
        let from = w.from as usize;
        let to = w.to as usize;
        p = put_text_line(out, p, l, k + 1, &file[from..to]);
    }
    p
}
