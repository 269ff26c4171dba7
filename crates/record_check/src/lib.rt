// Whether a record is valid. A caller may have built it from anything; the writer and the book ask before they take it.
#![tactic(auto)]

mod rooms;

ghost use Rattle.layout.specs.Layouts.{kinds_of, type_of};
ghost use Rattle.text.specs.Bytes.{all};
ghost use Rattle.record_check.specs.Validity.{is_blank_cell, holds_all, is_valid};
ghost use Rattle.value.specs.Texts.{rooms_in};
ghost use Rattle.writer_form.specs.Written.{values_in};
ghost use Rattle.std.specs.Prelude.{drop, ◌≡◌};

use layout::Layout;
use record::{Cell, Record};
use value::Rooms;

// Each value of the layout's fields is one that its kind may hold.
fn all_hold(l: Layout, cells: [Cell; 26], rooms: Rooms<'_>) -> bool
    ensures { result ≡ holds_all (type_of l) (rooms_in rooms.entry) (kinds_of l) (values_in l cells) }
{
    let t = layout::type_of(l);
    let size = layout::size(l);
    for k in 0..size {
        let c = cells[k];
        let v = c.value;
        if !value_fits::holds(t, layout_kind::of_field(l, k + 1), v, rooms) {
            return false;
        }
    }
    true
}

// The cells from the place n on are blank.
fn are_blank(cells: [Cell; 26], n: usize) -> bool
    ensures { result ≡ all is_blank_cell (drop n cells) }
{
    cells.iter().skip(n).all(|c| !value_ask::is_filled(c.value))
}

// A record is valid when its values and rules are obeyed, its texts are trimmed, and its unused room is zero.
pub fn is_valid(r: Record) -> bool
    ensures { result ≡ is_valid r }
{
    let l = r.layout;
    let cells = r.cells;
    let rooms = Rooms {
        unit: &r.unit,
        reason: &r.reason,
        note: &r.note,
        gradients: r.gradients,
    };
    all_hold(l, cells, rooms)
        & are_blank(cells, layout::size(l))
        & rooms::are_clear(l, cells, rooms.unit, rooms.reason, rooms.note)
        & rooms::has_no_triples(l, r.gradients)
        & record_rules::lowest_of(l, &cells, &r.gradients).is_none()
}
