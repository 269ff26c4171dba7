// Unused room is zero.
ghost use Rattle.std.specs.Prelude.{◌≤◌, drop, ◌≡◌};
ghost use Rattle.text.specs.Bytes.{all, is};
ghost use Rattle.record_check.specs.Validity.{are_clear, no_triples};
ghost use Rattle.record.specs.Records.{field_of};

use layout::{Layout, fields};
use record::Cell;
use text::scan;
use value::Value;
use value_list::Triple;

// The bytes of a room from the place n on are zero.
fn is_clear(room: &[u8], n: usize) -> bool
    ensures { result ≡ all (is 0) (drop n room.now) }
{
    scan::are_zero(scan::rest(room, n))
}

// The value of the field k, where 0 is none.
fn value_at(cells: [Cell; 26], k: usize) -> Value
    requires { k ≤ 26 }
    ensures { result ≡ field_of cells k }
{
    if k == 0 {
        return Value::Blank;
    }
    record::field(cells, k)
}

// Past the texts of the unit, the reason and the note.
pub fn are_clear(l: Layout, cells: [Cell; 26], unit: &[u8], reason: &[u8], note: &[u8]) -> bool
    ensures { result ≡ are_clear l cells unit.now reason.now note.now }
{
    is_clear(unit, value_ask::size_in(record::field(cells, fields::UNIT)))
        & is_clear(
            reason,
            value_ask::size_in(value_at(cells, fields::reason_field(l))),
        )
        & is_clear(
            note,
            value_ask::size_in(value_at(cells, fields::note_field(l))),
        )
}

// A layout without gradients has no triples.
pub fn has_no_triples(l: Layout, gradients: [Triple; 16]) -> bool
    ensures { result ≡ no_triples l gradients }
{
    if fields::gradients_field(l) != 0 {
        return true;
    }
    value_fits::triples::are_none(gradients, 0)
}
