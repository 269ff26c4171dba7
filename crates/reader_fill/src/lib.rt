// From the places of a file's values to the record, field by field and by kind.
#![tactic(auto)]

ghost use Rattle.std.specs.Prelude.{◌≤◌, length, ◌≡◌};
ghost use Rattle.reader_fill.specs.Filled.{value_with, record_with};
ghost use Rattle.layout.specs.Layouts.{kind_at, size_of};
ghost use Rattle.layout.specs.Rows.{text_at};
ghost use Rattle.value_list.specs.Forms.{gradients_in};
ghost use Rattle.text_lines.specs.Places.{part_of, column_in, Placed};
ghost use Rattle.layout.specs.FieldNumbers.{gradients_field};
ghost use Rattle.value.specs.Kinds.{triples_counted, value_of};

use layout::{Layout, fields};
use record::{Cell, Record};
use text_lines::Span;
use value::Value;
use value_list::{Gradients, Triple, triples};

// The value of the field k that stands at a place of the file.
fn value_at(l: Layout, k: usize, file: &[u8], p: Span) -> Option<Value>
    requires { (p.from ≤ p.to) × (p.to ≤ length file.now) }
    ensures { result ≡ value_of (kind_at l k) (part_of file.now p) }
{
    value::read::read(layout_kind::of_field(l, k), p.text(file))
}

// The text of the field k: nothing at 0.
pub fn text_at<'a>(l: Layout, file: &'a [u8], spans: [Span; 27], k: usize) -> &'a [u8]
    requires { (k ≤ size_of l) × Placed (size_of l) file.now spans }
    ensures { result.now ≡ text_at (column_in (size_of l) file.now spans) k }
{
    if k == 0 {
        return &file[0..0];
    }
    spans[k].text(file)
}

// The gradients of the layout, read: none where it has none.
pub fn gradients_of(l: Layout, file: &[u8], spans: [Span; 27]) -> Option<Gradients>
    requires { Placed (size_of l) file.now spans }
    ensures { result ≡ gradients_in (text_at (column_in (size_of l) file.now spans) (gradients_field l)) }
{
    let at = fields::gradients_field(l);
    if at == 0 {
        return None;
    }
    triples::read(text_at(l, file, spans, at))
}

// The value of the gradients, by how many were read.
fn counted(gradients: Option<usize>) -> Option<Value>
    ensures { result ≡ triples_counted gradients }
{
    gradients.map(Value::Triples)
}

// The value of the field k, with that of the gradients from how many were read of them.
pub fn value_in(
    l: Layout,
    k: usize,
    file: &[u8],
    p: Span,
    gradients: Option<usize>,
) -> Option<Value>
    requires { (p.from ≤ p.to) × (p.to ≤ length file.now) }
    ensures { result ≡ value_with l k gradients (part_of file.now p) }
{
    if k == fields::gradients_field(l) {
        return counted(gradients);
    }
    value_at(l, k, file, p)
}

// The record of the layout with these cells and triples; texts are kept in their rooms.
pub fn record_of(
    l: Layout,
    file: &[u8],
    spans: [Span; 27],
    cells: [Cell; 26],
    gradients: [Triple; 16],
) -> Record
    requires { Placed (size_of l) file.now spans }
    ensures { result ≡ record_with l (column_in (size_of l) file.now spans) cells gradients }
{
    let unit = text_room::keep(text_at(l, file, spans, fields::UNIT));
    let reason = text_room::keep(text_at(l, file, spans, fields::reason_field(l)));
    let note = text_room::keep(text_at(l, file, spans, fields::note_field(l)));
    Record {
        layout: l,
        cells,
        unit,
        reason,
        note,
        gradients,
    }
}
