// One walk over a message's lines: its bytes, the separators, the row's place, and of each field whether its label stood and where its value is.
// For CB both layouts are kept, since which one it is is known only at the end.
#![tactic(auto)]

ghost use Rattle.std.specs.Prelude.{◌+◌, ◌<◌, ◌≤◌, eqb, length, cond, ◌≡◌};
ghost use Rattle.reader_walk.specs.State.{noted_of, frame_of, handed_of, found_of};
ghost use Rattle.text.specs.Puts.{limit};

use text_lines::Span;
use value_name::MessageType;

// The labels of one layout that were seen, as bits from the first field on, and the field of the first repeat: 0 where there is none.
#[derive(Clone, Copy)]
pub struct Marks {
    pub seen: u32,
    pub again: usize,
}

// A field's line noted: where its place is to be kept (0 is nobody's), and the marks after it.
#[derive(Clone, Copy)]
pub struct Noted {
    pub into: usize,
    pub marks: Marks,
}

// How many separators, how many lines stand between the first and the next, and the place of the first of those.
#[derive(Clone, Copy)]
pub struct Frame {
    pub seps: usize,
    pub inside: usize,
    pub row: Span,
}

// What the walk found: the offset of the first byte that is not allowed (the file's length where all are), the frame, the fields of the type's
// layout, and the fields of the other layout of CB.
#[derive(Clone, Copy)]
pub struct Found {
    pub stop: usize,
    pub frame: Frame,
    pub first: Marks,
    pub places: [Span; 27],
    pub second: Marks,
    pub others: [Span; 27],
}

const NOWHERE: Span = Span { from: 0, to: 0 };

const OUTSET: Frame = Frame {
    seps: 0,
    inside: 0,
    row: NOWHERE,
};

const NOTHING: Marks = Marks { seen: 0, again: 0 };

// The field of the first repeat, after one more of the field k.
fn first_repeat(again: usize, k: usize) -> usize
    ensures { result ≡ cond (eqb again 0) k again }
{
    if again == 0 {
        return k;
    }
    again
}

// One line more of the field k.
fn note(m: Marks, k: usize) -> Noted
    requires { (k ≤ 26) × (m.seen < 67108864) }
    ensures { result ≡ noted_of m k }
{
    if k == 0 {
        return Noted { into: 0, marks: m };
    }
    let bit = (k - 1) as u32;
    if (m.seen >> bit) % 2 == 1 {
        return Noted {
            into: 0,
            marks: Marks {
                seen: m.seen,
                again: first_repeat(m.again, k),
            },
        };
    }
    Noted {
        into: k,
        marks: Marks {
            seen: m.seen + (1 << bit),
            again: m.again,
        },
    }
}

// The row: the first line below one separator.
fn row_of(f: Frame, p: Span) -> Span
    ensures { result ≡ cond (eqb f.inside 0) p f.row }
{
    if f.inside == 0 {
        return p;
    }
    f.row
}

// One line more of the frame: a separator, or a line at a place.
fn frame_in(f: Frame, separator: bool, p: Span) -> Frame
    requires { (f.seps + 1 < limit) × (f.inside + 1 < limit) }
    ensures { result ≡ frame_of f separator p }
{
    let row = f.row;
    if separator {
        return Frame {
            seps: f.seps + 1,
            inside: f.inside,
            row,
        };
    }
    if f.seps == 1 {
        return Frame {
            seps: f.seps,
            inside: f.inside + 1,
            row: row_of(f, p),
        };
    }
    f
}

// The label to expect next: the one after this line's, or the same as before where the line is none.
fn turn_after(turn: usize, first: usize, second: usize) -> usize
    requires { (first ≤ 26) × (second ≤ 26) }
    ensures { result ≡ cond (eqb first 0) (cond (eqb second 0) turn (second + 25)) (first + 1) }
{
    if first != 0 {
        return first + 1;
    }
    if second != 0 {
        return second + 25;
    }
    turn
}

// What is handed out: of a file where the walk stopped nothing of its lines, and of any other all that was kept, with the first of the places, where
// lines without a new field leave theirs, set back.
fn handed(
    stopped: bool,
    stop: usize,
    frame: Frame,
    first: Marks,
    places: [Span; 27],
    second: Marks,
    others: [Span; 27],
) -> Found
    ensures { result ≡ handed_of stopped stop frame first places second others }
{
    if stopped {
        return Found {
            stop,
            frame: OUTSET,
            first: NOTHING,
            places: [NOWHERE; 27],
            second: NOTHING,
            others: [NOWHERE; 27],
        };
    }
    let mut kept = places;
    let mut spare = others;
    kept[0] = NOWHERE;
    spare[0] = NOWHERE;
    Found {
        stop,
        frame,
        first,
        places: kept,
        second,
        others: spare,
    }
}

// One walk over the file, to its end or to the first byte that is not allowed: then nothing of its lines is handed out.
pub fn walk(t: MessageType, s: &[u8]) -> Found
    requires { length s.now ≤ 8192 }
    ensures { result ≡ found_of t s.now }
{
    let mut frame = OUTSET;
    let mut first = NOTHING;
    let mut second = NOTHING;
    let mut places = [NOWHERE; 27];
    let mut others = [NOWHERE; 27];
    let mut turn = 1;
    let mut at = 0;
    // A while: each turn goes on by its line's length.
    while at < s.len() {
        let item = reader_line::line_of(t, s, at, frame.seps, turn);
        let end = item.end;
        let Some(n) = text_lines::break_at(s, end) else {
            at = end;
            break;
        };
        let value = item.value;
        frame = frame_in(frame, item.separator, value);
        let a = note(first, item.first);
        first = a.marks;
        let i = a.into;
        places[i] = value;
        let b = note(second, item.second);
        second = b.marks;
        let j = b.into;
        others[j] = value;
        turn = turn_after(turn, item.first, item.second);
        at = end + n;
    }
    handed(at < s.len(), at, frame, first, places, second, others)
}
