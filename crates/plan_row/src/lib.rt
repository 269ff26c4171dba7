// A row of the plan: its four lines, `ca`, `ioa`, `unit` and `type`. Each byte of a row is looked at about once: a line's value is a run of digits or
// of a code's bytes, and what stands after the run must be the line's LF.
#![tactic(auto)]

ghost use Rattle.std.specs.Prelude.{◌≤◌, ltb, false, cond, [], ◌∷◌, ◌≡◌};
ghost use Rattle.plan_row.specs.Kept.{key_of, sought_key, rows_of, numbered_of, type_read_of, row_at_of};
ghost use Rattle.plan_row.specs.Rows.{types, type_from, type_at, plan_row_of};
ghost use Rattle.text_keyline.specs.Keylines.{number_at};
ghost use Rattle.text.specs.Bytes.{any, is};

use text::{digits, scan};
use value_name::MessageType;

// A line's number, and where the line's LF stands.
#[derive(Clone, Copy)]
pub struct Numbered {
    pub value: u64,
    pub end: usize,
}

// What a row gives: its address in one number, its type, and where the unit's code and the row end.
#[derive(Clone, Copy)]
pub struct Entry {
    pub key: u64,
    pub message: MessageType,
    pub from: usize,
    pub to: usize,
    pub end: usize,
}

// An address that stands twice is bad at the later `ioa` line.
const TWICE: u8 = 1;

// An address of a plan in one number.
fn key_of(ca: u64, ioa: u64) -> u64
    requires { (ca ≤ 4294967295) × (ioa ≤ 16777215) }
    ensures { result ≡ key_of ca ioa }
{
    ca * 16777216 + ioa
}

// The number of an address that is asked for: 0, which no row has, where no plan can have it.
pub fn sought_key(ca: u32, ioa: u32) -> u64
    ensures { result ≡ sought_key ca ioa }
{
    if 16777215 < ioa {
        return 0;
    }
    key_of(ca as u64, ioa as u64)
}

// Whether one of the addresses is this one: four at a time without a branch between them, and what is left over one by one.
fn taken(keys: &[u64], key: u64) -> bool
    ensures { result ≡ any (is key) keys.now }
{
    let fours = keys.chunks_exact(4);
    let rest = fours.remainder();
    for four in fours {
        if (four[0] == key) | (four[1] == key) | (four[2] == key) | (four[3] == key) {
            return true;
        }
    }
    for k in rest {
        if *k == key {
            return true;
        }
    }
    false
}

// Whether one of the addresses, of which none is above the greatest, is this one: plans mostly ascend, and need no search.
fn stands(keys: &[u64], greatest: u64, key: u64) -> bool
    requires { any (ltb greatest) keys.now ≡ false }
    ensures { result ≡ any (is key) keys.now }
{
    if greatest < key {
        return false;
    }
    taken(keys, key)
}

// The number in the first line, after its key, and where the line ends.
fn number_line(key: &[u8], most: u64, s: &[u8]) -> Option<Numbered>
    requires { any (is 10) key.now ≡ false }
    ensures { result ≡ numbered_of (number_at key.now most s.now) s.now }
{
    if !scan::starts(key, s) {
        return None;
    }
    let n = key.len();
    let led = digits::lead(&s[n..], 10);
    let e = n + led.count;
    if e == s.len() {
        return None;
    }
    if (s[e] != b'\n') | (s[n] == b'0') | (led.count == 0) | (most < led.value) {
        return None;
    }
    Some(Numbered {
        value: led.value,
        end: e,
    })
}

// The type, if the second byte of its code fits.
fn type_if(fits: bool, t: MessageType) -> Option<MessageType>
    ensures { result ≡ type_read_of (cond fits (Some t) None) }
{
    if fits {
        return Some(t);
    }
    None
}

// The type whose code two bytes are.
fn type_of(a: u8, b: u8) -> Option<MessageType>
    ensures { result ≡ type_read_of (type_from types (a ∷ b ∷ [])) }
{
    match a {
        b'C' => type_if(b == b'B', MessageType::Cb),
        b'E' => type_if(b == b'B', MessageType::Eb),
        b'L' => type_if(b == b'B', MessageType::Lb),
        b'M' => type_if(b == b'G', MessageType::Mg),
        b'Q' => type_if(b == b'R', MessageType::Qr),
        b'R' => if b == b'C' {
            Some(MessageType::Rc)
        } else {
            type_if(b == b'I', MessageType::Ri)
        },
        b'S' => type_if(b == b'R', MessageType::Sr),
        b'V' => type_if(b == b'Q', MessageType::Vq),
        _ => None,
    }
}

// The type of the first line: `type=`, two bytes and LF.
fn type_line(s: &[u8]) -> Option<MessageType>
    ensures { result ≡ type_read_of (type_at s.now) }
{
    if !scan::starts(b"type=", s) {
        return None;
    }
    if s.len() < 8 {
        return None;
    }
    if s[7] != b'\n' {
        return None;
    }
    type_of(s[5], s[6])
}

// The row at the front of a text, below those with these addresses, of which none is above the greatest.
pub fn row_at(s: &[u8], keys: &[u64], greatest: u64) -> Result<Entry, u8>
    requires { any (ltb greatest) keys.now ≡ false }
    ensures { result ≡ row_at_of s.now (plan_row_of (rows_of keys.now) s.now) }
{
    let Some(ca) = number_line(b"ca=", 65534, s) else {
        return Err(0);
    };
    let second = ca.end + 1;
    let Some(ioa) = number_line(b"ioa=", 16777215, &s[second..]) else {
        return Err(1);
    };
    let key = key_of(ca.value, ioa.value);
    if stands(keys, greatest, key) {
        return Err(TWICE);
    }
    let third = second + ioa.end + 1;
    let Some(c) = text_keyline::unit_line(&s[third..]) else {
        return Err(2);
    };
    let fourth = third + c + 1;
    let Some(message) = type_line(&s[fourth..]) else {
        return Err(3);
    };
    Ok(Entry {
        key,
        message,
        from: third + 5,
        to: third + c,
        end: fourth + 8,
    })
}
