// The summary row, compared in place with the body's values: nothing is built, and the row is never cut at `;`, which a value may hold.
#![tactic(auto)]

ghost use Rattle.std.specs.Prelude.{◌+◌, ◌≤◌, length, [], ◌∷◌, map, ◌≡◌};
ghost use Rattle.layout.specs.Layouts.{size_of};
ghost use Rattle.layout.specs.Rows.{row_fields, text_at, bands_in, tail_text, row_text, row_of};
ghost use Rattle.text_lines.specs.Places.{part_of, column_in, Placed};
ghost use Rattle.reader_row.specs.Steps.{step_of};
ghost use Rattle.text.specs.Bytes.{same, is, upto, past, trim};

use layout::Layout;
use text::scan;
use text_lines::Span;

// The bytes of the file from at to end begin with those of the piece.
#[tactic(auto, unfolding(crate::specs::Steps::step_of))]
fn skip_piece(file: &[u8], at: usize, end: usize, p: Span) -> Option<usize>
    requires { (at ≤ end) × (end ≤ length file.now) × (p.from ≤ p.to) × (p.to ≤ length file.now) }
    ensures { result ≡ step_of file.now at end (part_of file.now p) }
{
    let piece = p.text(file);
    if !scan::starts(piece, &file[at..end]) {
        return None;
    }
    Some(at + piece.len())
}

// The same with a `;` before the piece.
fn skip_mark(file: &[u8], at: usize, end: usize, p: Span) -> Option<usize>
    requires { (at ≤ end) × (end ≤ length file.now) × (p.from ≤ p.to) × (p.to ≤ length file.now) }
    ensures { result ≡ step_of file.now at end (59 ∷ part_of file.now p) }
{
    if end <= at {
        return None;
    }
    if file[at] != b';' {
        return None;
    }
    skip_piece(file, at + 1, end, p)
}

// The fields of the row, in the layout's order.
fn skip_fields(l: Layout, file: &[u8], at: usize, end: usize, spans: [Span; 27]) -> Option<usize>
    requires { (at ≤ end) × (end ≤ length file.now) × Placed (size_of l) file.now spans }
    ensures { result ≡ step_of file.now at end (row_text (map (text_at (column_in (size_of l) file.now spans)) (row_fields l))) }
{
    let n = layout::row::size(l);
    let Some(first) = skip_piece(file, at, end, spans[1]) else {
        return None;
    };
    let mut p = first;
    for i in 1..n {
        let k = layout::row::field(l, i);
        let Some(next) = skip_mark(file, p, end, spans[k]) else {
            return None;
        };
        p = next;
    }
    Some(p)
}

// The two half-bands of SR, trimmed: what stands before the first `;` of the value, and what stands after it.
fn skip_halves(file: &[u8], at: usize, end: usize, p: Span) -> Option<usize>
    requires { (at ≤ end) × (end ≤ length file.now) × (p.from ≤ p.to) × (p.to ≤ length file.now) }
    ensures { result ≡ step_of file.now at end (tail_text (trim (upto (is 59) (part_of file.now p)) ∷ trim (past (is 59) (part_of file.now p)) ∷ [])) }
{
    let from = p.from as usize;
    let to = p.to as usize;
    let cut = from + scan::first(p.text(file), b';');
    let Some(middle) = skip_mark(file, at, end, text_lines::trim_span(file, from, cut)) else {
        return None;
    };
    if cut == to {
        return skip_mark(
            file,
            middle,
            end,
            Span {
                from: p.to,
                to: p.to,
            },
        );
    }
    skip_mark(file, middle, end, text_lines::trim_span(file, cut + 1, to))
}

// What stands in the row after the fields: SR's half-bands, and nothing in other layouts.
fn skip_bands(l: Layout, file: &[u8], at: usize, end: usize, spans: [Span; 27]) -> Option<usize>
    requires { (at ≤ end) × (end ≤ length file.now) × Placed (size_of l) file.now spans }
    ensures { result ≡ step_of file.now at end (tail_text (bands_in l (column_in (size_of l) file.now spans))) }
{
    match l {
        Layout::Secondary => skip_halves(file, at, end, spans[6]),
        _ => Some(at),
    }
}

// Whether the row is the body's values, joined.
pub fn agrees(l: Layout, file: &[u8], row: Span, spans: [Span; 27]) -> bool
    requires { (row.from ≤ row.to) × (row.to ≤ length file.now) × Placed (size_of l) file.now spans }
    ensures { result ≡ same (part_of file.now row) (row_of l (column_in (size_of l) file.now spans)) }
{
    let start = row.from as usize;
    let end = row.to as usize;
    let Some(a) = skip_fields(l, file, start, end, spans) else {
        return false;
    };
    let Some(b) = skip_bands(l, file, a, end, spans) else {
        return false;
    };
    b == end
}
