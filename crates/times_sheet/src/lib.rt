// The unit sheet: `unit=`, `avviamento=`, `rampa=`, three lines, each ended by LF, the last two holding a number.
#![tactic(auto)]

ghost use Rattle.std.specs.Prelude.{◌≤◌, length, true, ◌≡◌};
ghost use Rattle.text_keyline.specs.Keylines.{below};
ghost use Rattle.times_sheet.specs.Sheet.{is_number, number_line, unit_line, good_numbers, is_for, after_key, sheet_part};
ghost use Rattle.text.specs.Bytes.{first_of};

use text::scan;

// Which of the two times is asked for.
#[derive(Clone, Copy)]
pub enum Which {
    StartUp,
    Ramp,
}

// A part of a text, by its ends.
#[derive(Clone, Copy, PartialEq, Eq, Debug)]
pub struct Part {
    pub from: usize,
    pub to: usize,
}

fn is_number(s: &[u8]) -> bool
    ensures { result ≡ is_number s.now }
{
    match value_number::read(s) {
        Some(_) => true,
        None => false,
    }
}

// Whether the first line has the key and a number.
fn number_line(key: &[u8], s: &[u8]) -> bool
    ensures { result ≡ number_line key.now s.now }
{
    let Some(_) = text_keyline::line_of(key, s) else {
        return false;
    };
    is_number(text_keyline::value(s, key.len()))
}

// Whether the first line names the unit.
fn unit_line(unit: &[u8], s: &[u8]) -> bool
    ensures { result ≡ unit_line unit.now s.now }
{
    let Some(_) = text_keyline::line_of(b"unit=", s) else {
        return false;
    };
    scan::same(unit, text_keyline::value(s, 5))
}

// Whether the sheet is good, and the unit's.
pub fn is_for(unit: &[u8], s: &[u8]) -> bool
    ensures { result ≡ is_for unit.now s.now }
{
    let second = text_keyline::below(s);
    let third = text_keyline::below(second);
    if !unit_line(unit, s) {
        return false;
    }
    if !number_line(b"avviamento=", second) {
        return false;
    }
    if !number_line(b"rampa=", third) {
        return false;
    }
    text_keyline::below(third).len() == 0
}

// What stands after the first n bytes of the line at which the rest t of the sheet begins.
fn after_key(s: &[u8], t: &[u8], n: usize) -> Part
    requires { (length t.now ≤ length s.now) × (n ≤ first_of 10 t.now) }
    ensures { result ≡ after_key n s.now t.now }
{
    let at = s.len() - t.len();
    Part {
        from: at + n,
        to: at + scan::first(t, b'\n'),
    }
}

// The part of a good sheet that holds a time's number.
pub fn time_part(w: Which, s: &[u8]) -> Part
    requires { good_numbers (below s.now) ≡ true }
    ensures { result ≡ sheet_part w s.now }
{
    let second = text_keyline::below(s);
    match w {
        Which::StartUp => after_key(s, second, 11),
        Which::Ramp => after_key(s, text_keyline::below(second), 6),
    }
}
