// The summary row of a message, put into a lent buffer: what there is room for is written, and the answer is the place past it.
#![tactic(auto)]

ghost use Rattle.std.specs.Prelude.{◌+◌, ◌<◌, map};
ghost use Rattle.layout.specs.Layouts.{type_of};
ghost use Rattle.layout.specs.Rows.{row_fields, text_at, halves, tail_text, row_text, row_of};
ghost use Rattle.text.specs.Puts.{limit, Puts};
ghost use Rattle.value.specs.Texts.{rooms_in, value_text};
ghost use Rattle.writer_form.specs.Held.{Held, Halved};
ghost use Rattle.writer_form.specs.Written.{values_in};

use layout::Layout;
use record::Cell;
use text::put;
use value::{Rooms, Value};
use value_name::MessageType;

// The values of the row's fields, joined by `;`. Each row begins with the identifier.
fn put_pieces(out: &mut [u8], at: usize, l: Layout, cells: [Cell; 26], rooms: Rooms<'_>) -> usize
    requires { (at + 90000 < limit) × Held l (rooms_in rooms) cells }
    ensures { Puts out.old at (row_text (map (text_at (map (value_text (type_of l) (rooms_in rooms.entry)) (values_in l cells))) (row_fields l)))
        result out.new }
{
    let t = layout::type_of(l);
    let n = layout::row::size(l);
    let first = cells[record::at::IDENTIFIER].value;
    let mut p = value_put::put_value(out, at, t, first, rooms);
    for i in 1..n {
        let from = put::put_byte(out, p, b';');
        let k = layout::row::field(l, i);
        let v = cells[k - 1].value;
        p = value_put::put_value(out, from, t, v, rooms);
    }
    p
}

// The half-bands of SR stand as two values: of blank ones, two empty values.
fn put_halves(out: &mut [u8], at: usize, t: MessageType, v: Value, rooms: Rooms<'_>) -> usize
    requires { (at + 2500 < limit) × Halved t (rooms_in rooms) v }
    ensures { Puts out.old at (tail_text (halves (value_text t (rooms_in rooms.entry) v))) result out.new }
{
    let from = put::put_byte(out, at, b';');
    if !value_ask::is_filled(v) {
        return put::put_byte(out, from, b';');
    }
    value_put::put_value(out, from, t, v, rooms)
}

// The row of a layout.
pub fn put_row(out: &mut [u8], at: usize, l: Layout, cells: [Cell; 26], rooms: Rooms<'_>) -> usize
    requires { (at + 95000 < limit) × Held l (rooms_in rooms) cells }
    ensures { Puts out.old at (row_of l (map (value_text (type_of l) (rooms_in rooms.entry)) (values_in l cells))) result out.new }
{
    let to = put_pieces(out, at, l, cells, rooms);
    let v = cells[record::at::HALF_BANDS].value;
    match l {
        Layout::Secondary => put_halves(out, to, MessageType::Sr, v, rooms),
        _ => to,
    }
}
