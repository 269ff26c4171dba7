// What one line of a file is: a separator, the summary row, or the value of a field, found by its label.
#![tactic(auto)]

ghost use Rattle.std.specs.Prelude.{◌+◌, ◌≤◌, ◌<◌, eqb, length, drop, false, cond, [], ◌≡◌};
ghost use Rattle.reader_line.specs.Items.{first_labels, second_labels, head_of, is_printed, is_foreign, IsExpected, item, fielded, item_in, item_of};
ghost use Rattle.layout.specs.Layouts.{labels_of, label_at};
ghost use Rattle.text_lines.specs.Entries.{place_of};
ghost use Rattle.text_lines.specs.Places.{no_span, plain_run};
ghost use Rattle.text_lines.specs.Spots.{field_in};
ghost use Rattle.text.specs.Bytes.{part, same};

use layout::Layout;
use text::scan;
use text_lines::Span;
use value_name::MessageType;

// A line: whether it is a separator, else its field in the type's layout and in the other layout of CB (0 where it is foreign to one),
// the place of its value, or of the row, and where its printable bytes end.
#[derive(Clone, Copy)]
pub struct Item {
    pub end: usize,
    pub separator: bool,
    pub first: usize,
    pub second: usize,
    pub value: Span,
}

// The accented letter.
const ACCENTED: u8 = 0xE0;

const NOWHERE: Span = Span { from: 0, to: 0 };

// The label that is tried first on a line, as a layout's field, and the fields that it has in the type's layouts.
#[derive(Clone, Copy)]
pub struct Expected {
    pub layout: Layout,
    pub field: usize,
    pub first: usize,
    pub second: usize,
}

// Whether the text is the label of the field k.
fn is_label(l: Layout, k: usize, s: &[u8]) -> bool
    ensures { result ≡ same (label_at l k) s.now }
{
    let m = layout_label::of_field(l, k);
    if m.size != s.len() {
        return false;
    }
    let mut text = [0u8; 36];
    layout_label::put_label(&mut text, 0, m);
    scan::same(scan::front(&text, m.size), s)
}

// The field whose label this is: 0 where it is foreign.
fn field_of(l: Layout, s: &[u8]) -> usize
    ensures { result ≡ place_of (labels_of l) s.now }
{
    for k in 0..layout::size(l) {
        if is_label(l, k + 1, s) {
            return k + 1;
        }
    }
    0
}

// The field in the mFRR layout, for CB alone.
fn second_of(t: MessageType, s: &[u8]) -> usize
    ensures { result ≡ place_of (second_labels t) s.now }
{
    match t {
        MessageType::Cb => field_of(Layout::Mfrr, s),
        _ => 0,
    }
}

// The field in the type's layout, where the field in the mFRR layout is known: from the third on, its labels are no other layout's.
fn first_of(t: MessageType, second: usize, s: &[u8]) -> usize
    requires { second ≡ place_of (second_labels t) s.now }
    ensures { result ≡ place_of (first_labels t) s.now }
{
    if 2 < second {
        return 0;
    }
    field_of(layout::of_type(t), s)
}

// Where the value may begin, if the line begins with the label of the field k, blanks and '=': else 0.
fn head(l: Layout, k: usize, s: &[u8]) -> usize
    ensures { result ≡ head_of (label_at l k) s.now }
{
    let m = layout_label::of_field(l, k);
    let n = m.size;
    if n == 0 {
        return 0;
    }
    let mut text = [0u8; 36];
    layout_label::put_label(&mut text, 0, m);
    if !scan::starts(scan::front(&text, n), s) {
        return 0;
    }
    let at = n + scan::lead(&s[n..]);
    if at == s.len() {
        return 0;
    }
    if s[at] != b'=' {
        return 0;
    }
    at + 1
}

// The field k of the market layout: the first two labels are also mFRR's.
fn expected_in_market(k: usize) -> Expected
    ensures { IsExpected MessageType.Cb result }
{
    if k <= 2 {
        return Expected {
            layout: Layout::Market,
            field: k,
            first: k,
            second: k,
        };
    }
    Expected {
        layout: Layout::Market,
        field: k,
        first: k,
        second: 0,
    }
}

// The label that is expected at a turn, the one after the last that was found, since messages come in printed order. Turns 1 to 26 are the fields
// of the type's layout, 27 to 36 the fields 3 to 12 of mFRR. Any turn is right: another label than the expected one is searched for.
fn expect(t: MessageType, turn: usize) -> Expected
    ensures { IsExpected t result }
{
    match t {
        MessageType::Cb => {
            if 26 < turn {
                Expected {
                    layout: Layout::Mfrr,
                    field: turn - 24,
                    first: 0,
                    second: turn - 24,
                }
            } else {
                expected_in_market(turn)
            }
        }
        _ => Expected {
            layout: layout::of_type(t),
            field: turn,
            first: turn,
            second: 0,
        },
    }
}

// Whether a text begins with the label of the field k as it is printed: padded, and with '=' after it.
fn is_printed(l: Layout, k: usize, s: &[u8]) -> bool
    ensures { result ≡ is_printed (label_at l k) s.now }
{
    if s.len() < 37 {
        return false;
    }
    if s[36] != b'=' {
        return false;
    }
    let m = layout_label::of_field(l, k);
    if m.size == 0 {
        return false;
    }
    layout_label::is_printed(m, s)
}

// Where the value may begin that follows the expected label: 0 where something else stands there. A label as it is printed is met at once, and any other
// begins at least with a capital letter.
fn head_at(l: Layout, k: usize, s: &[u8]) -> usize
    ensures { result ≡ head_of (label_at l k) s.now }
{
    if s.len() == 0 {
        return 0;
    }
    if is_printed(l, k, s) {
        return 37;
    }
    let b = s[0];
    match b {
        b'A'..=b'Z' => head(l, k, s),
        _ => 0,
    }
}

// The line below one separator: a separator, or the row.
fn row_item(t: MessageType, s: &[u8], at: usize, end: usize) -> Item
    requires { (at ≤ end) × (end ≤ length s.now) × (end < 65536) }
    ensures { result ≡ item_in [] t 1 at (part at end s.now) }
{
    let p = text_lines::trim_span(s, at, end);
    Item {
        end,
        separator: text_lines::is_separator(p.text(s)),
        first: 0,
        second: 0,
        value: p,
    }
}

// A line that is nobody's.
fn nothing(end: usize) -> Item
    ensures { result ≡ item end false 0 0 no_span }
{
    Item {
        end,
        separator: false,
        first: 0,
        second: 0,
        value: NOWHERE,
    }
}

// A line that is no separator: the first '=' divides it, and label and value are trimmed.
fn param_item(t: MessageType, s: &[u8], at: usize, end: usize) -> Item
    requires { (at ≤ end) × (end ≤ length s.now) × (end < 65536) }
    ensures { result ≡ fielded end (field_in [] (first_labels t) (part at end s.now)) (field_in [] (second_labels t) (part at end s.now)) at (part at end s.now) }
{
    let line = &s[at..end];
    let e = scan::first(line, b'=');
    if e == line.len() {
        return nothing(end);
    }
    let label = scan::trim(&line[..e]);
    let second = second_of(t, label);
    let first = first_of(t, second, label);
    if (first == 0) & (second == 0) {
        return nothing(end);
    }
    let value = text_lines::trim_span(s, at + e + 1, end);
    Item {
        end,
        separator: false,
        first,
        second,
        value,
    }
}

// Whether a line is empty or begins with an asterisk, as the banners do: then it is no separator, and has no label.
fn is_foreign(s: &[u8]) -> bool
    ensures { result ≡ is_foreign s.now }
{
    if s.len() == 0 {
        return true;
    }
    s[0] == b'*'
}

// A line that does not begin with the expected label.
fn other_item(t: MessageType, s: &[u8], at: usize, end: usize, seps: usize) -> Item
    requires { (at ≤ end) × (end ≤ length s.now) × (end < 65536) }
    ensures { result ≡ item_in [] t seps at (part at end s.now) }
{
    if seps == 1 {
        return row_item(t, s, at, end);
    }
    if is_foreign(&s[at..end]) {
        return nothing(end);
    }
    let p = text_lines::trim_span(s, at, end);
    if text_lines::is_separator(p.text(s)) {
        return Item {
            end,
            separator: true,
            first: 0,
            second: 0,
            value: p,
        };
    }
    param_item(t, s, at, end)
}

// The line whose run of printable bytes stops at an accent: as it was read, or to its end where it opens with such a label.
fn accented_item(t: MessageType, s: &[u8], at: usize, end: usize, seps: usize, plain: Item) -> Item
    requires { (at ≤ length s.now) × (length s.now < 65536) × (end ≡ at + plain_run (drop at s.now)) × (plain ≡ item_in [] t seps at (part at end s.now)) }
    ensures { result ≡ item_of t s.now at seps }
{
    let far = reader_accent::line_end(t, s, at, end);
    if far == end {
        return plain;
    }
    if seps == 1 {
        return row_item(t, s, at, far);
    }
    let e = scan::first(&s[at..far], b'=');
    let first = reader_accent::field_of(t, scan::trim(&s[at..at + e]));
    let value = text_lines::trim_span(s, at + e + 1, far);
    Item {
        end: far,
        separator: false,
        first,
        second: 0,
        value,
    }
}

// Where the value may begin that follows the label expected at a turn: 0 below one separator, where none is expected.
fn expected_head(e: Expected, s: &[u8], seps: usize) -> usize
    ensures { result ≡ cond (eqb seps 1) 0 (head_of (label_at e.layout e.field) s.now) }
{
    if seps == 1 {
        return 0;
    }
    let l = e.layout;
    head_at(l, e.field, s)
}

// What the line at a place is, below seps separators, and where it ends, with the label that is expected at this turn tried first: the bytes of a label that
// was met are printable, so that only those behind it are looked at. (The accent of a label can stand in any other line alone.)
pub fn line_of(t: MessageType, s: &[u8], at: usize, seps: usize, turn: usize) -> Item
    requires { (at ≤ length s.now) × (length s.now < 65536) }
    ensures { result ≡ item_of t s.now at seps }
{
    let e = expect(t, turn);
    let h = expected_head(e, &s[at..], seps);
    let from = at + h;
    let end = from + text_lines::plain_run(&s[from..]);
    if 0 < h {
        let value = text_lines::trim_span(s, from, end);
        return Item {
            end,
            separator: false,
            first: e.first,
            second: e.second,
            value,
        };
    }
    let plain = other_item(t, s, at, end, seps);
    if end == s.len() {
        return plain;
    }
    if s[end] != ACCENTED {
        return plain;
    }
    accented_item(t, s, at, end, seps, plain)
}
