// Lines of a file by their places: where a line ends, where its text stands without blanks, and whether it is a separator.
#![tactic(auto)]

ghost use Rattle.std.specs.Prelude.{◌+◌, ◌≤◌, ◌<◌, length, drop, ◌≡◌};
ghost use Rattle.text_lines.specs.Lines.{is_sep};
ghost use Rattle.text_lines.specs.Places.{part_of, trimmed_at, plain_run, break_of};
ghost use Rattle.text.specs.Bytes.{part, is_plain};

use text::scan;
use text::scan::{ByteTest, IsByte};

// A part of a file, by its ends. A file has at most 8,192 bytes, so 16 bits hold an end, and a layout's places are small enough to go by value.
#[derive(Clone, Copy, PartialEq, Eq, Debug)]
pub struct Span {
    pub from: u16,
    pub to: u16,
}

impl Span {
    // What stands there.
    pub fn text<'a>(self, file: &'a [u8]) -> &'a [u8]
        requires { (self.from ≤ self.to) × (self.to ≤ length file.now) }
        ensures { result.now ≡ part_of file.now self }
    {
        let from = self.from as usize;
        let to = self.to as usize;
        &file[from..to]
    }
}

// Whether a byte can be printed: 20 to 7E hex.
#[derive(Clone, Copy)]
struct Plain;

impl ByteTest for Plain {
    ghost passes = { λ t. is_plain };

    fn passes(&self, b: u8) -> bool {
        matches!(b, b' '..=b'~')
    }
}

// How many bytes from the start are 20 to 7E hex. One test for the bytes and the line's end: what stands after the run ends the line or is bad.
#[tactic(auto, using(crate::proofs::Leaves::run_plain))]
pub fn plain_run(s: &[u8]) -> usize
    ensures { result ≡ plain_run s.now }
{
    scan::run(s, &Plain)
}

// What ends the line at a place: the end of the file, LF, or CR LF.
pub fn break_at(s: &[u8], at: usize) -> Option<usize>
    requires { at ≤ length s.now }
    ensures { result ≡ break_of (drop at s.now) }
{
    if at == s.len() {
        return Some(0);
    }
    if s[at] == 10 {
        return Some(1);
    }
    if at + 1 == s.len() {
        return None;
    }
    if (s[at] == 13) & (s[at + 1] == 10) {
        return Some(2);
    }
    None
}

// The place of the part at..end without the blanks at its ends.
pub fn trim_span(s: &[u8], at: usize, end: usize) -> Span
    requires { (at ≤ end) × (end ≤ length s.now) × (end < 65536) }
    ensures { result ≡ trimmed_at at (part at end s.now) }
{
    let from = at + scan::lead(&s[at..end]);
    let to = from + scan::filled(&s[from..end]);
    Span {
        from: from as u16,
        to: to as u16,
    }
}

// A separator: five or more '+' and nothing else.
#[tactic(auto, using(text::proofs::Fronts::run_all), unfolding(crate::specs::Lines::is_sep))]
pub fn is_separator(t: &[u8]) -> bool
    ensures { result ≡ is_sep t.now }
{
    t.len() >= 5 && scan::run(t, &IsByte(b'+')) == t.len()
}
