// Labels with an accented letter, which is the one byte E0: which field they are, and where a line that opens with one ends.
#![tactic(auto)]

ghost use Rattle.std.specs.Prelude.{◌+◌, ◌≤◌, length, drop, ◌≡◌};
ghost use Rattle.reader_accent.specs.Accents.{accents_of, accent_field};
ghost use Rattle.text.specs.Bytes.{is, upto};
ghost use Rattle.text_lines.specs.Places.{plain_run, line_run};
ghost use Rattle.text_lines.specs.Spellings.{opens};
ghost use Rattle.value_name.specs.declared.MessageType.TheVariants.{Vq, Qr};

use layout::fields;
use text::scan;
use value_name::MessageType;

// The letter.
const ACCENTED: u8 = 0xE0;

fn mode_of(s: &[u8]) -> usize
    ensures { result ≡ accent_field Vq s.now }
{
    if scan::same(b"Modalit\xE0 funzionamento", s) {
        return fields::MODE;
    }
    0
}

fn quantity_of(s: &[u8]) -> usize
    ensures { result ≡ accent_field Qr s.now }
{
    if scan::same(b"Quantit\xE0 Riservata (MW)", s) {
        return fields::POWER;
    }
    if scan::same(b"Quantit\xE0 Riservata", s) {
        return fields::EXTENT;
    }
    0
}

// The field of a label of the type with its accent: 0 of any other text.
pub fn field_of(t: MessageType, s: &[u8]) -> usize
    ensures { result ≡ accent_field t s.now }
{
    match t {
        MessageType::Vq => mode_of(s),
        MessageType::Qr => quantity_of(s),
        _ => 0,
    }
}

// Whether the line that begins here has such a label before its first '='.
fn opens(t: MessageType, s: &[u8]) -> bool
    ensures { result ≡ opens (accents_of t) (upto (is 10) s.now) }
{
    let e = scan::first(s, b'=');
    if e == s.len() {
        return false;
    }
    field_of(t, scan::trim(&s[..e])) != 0
}

// Where the line at a place ends, whose first run of printable bytes ends at `end`: one that opens with such a label goes on behind its accent.
pub fn line_end(t: MessageType, s: &[u8], at: usize, end: usize) -> usize
    requires { (at ≤ length s.now) × (end ≡ at + plain_run (drop at s.now)) }
    ensures { result ≡ at + line_run (accents_of t) (drop at s.now) }
{
    if end == s.len() {
        return end;
    }
    if s[end] != ACCENTED {
        return end;
    }
    if !opens(t, &s[at..]) {
        return end;
    }
    let from = end + 1;
    from + text_lines::plain_run(&s[from..])
}
