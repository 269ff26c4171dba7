// Lines `key=value`, each ended by LF: the plan's, the program's own, the unit sheet's, a saved book's.
#![tactic(auto)]

ghost use Rattle.text_keyline.specs.Keylines.{line_of, below, line_text, whole_in, number_at, named_to};
ghost use Rattle.text.specs.Bytes.{is, upto};
ghost use Rattle.text.specs.Digits.{whole_text};
ghost use Rattle.text.specs.Puts.{limit, Puts};
ghost use Rattle.std.specs.Prelude.{◌+◌, ◌<◌, length, drop, ◌≡◌};

use text::{put, scan};
use value_name::{sequence, unit};

pub fn line_of(key: &[u8], s: &[u8]) -> Option<usize>
    ensures { result ≡ line_of key.now s.now }
{
    if !scan::starts(key, s) {
        return None;
    }
    let end = scan::first(s, b'\n');
    if end == s.len() {
        return None;
    }
    Some(end)
}

// What stands in the first line after its first n bytes: the value, where they are the key.
pub fn value(s: &[u8], n: usize) -> &[u8]
    ensures { result.now ≡ drop n (upto (is 10) s.now) }
{
    let e = scan::first(s, b'\n');
    scan::rest(scan::front(s, e), n)
}

// What follows the first line.
pub fn below(s: &[u8]) -> &[u8]
    ensures { result.now ≡ below s.now }
{
    let e = scan::first(s, b'\n');
    scan::rest(s, e + 1)
}

// A whole number from least to most, without leading zeros.
pub fn whole(s: &[u8], least: u64, most: u64) -> Option<u64>
    ensures { result ≡ whole_in least most s.now }
{
    let Some(n) = sequence::read(s) else {
        return None;
    };
    if (least <= n) & (n <= most) {
        return Some(n);
    }
    None
}

// The number in the first line, after its key.
pub fn number(key: &[u8], most: u64, s: &[u8]) -> Option<u64>
    ensures { result ≡ number_at key.now most s.now }
{
    let Some(_) = line_of(key, s) else {
        return None;
    };
    whole(value(s, key.len()), 1, most)
}

// Where the unit's line ends.
pub fn unit_line(s: &[u8]) -> Option<usize>
    ensures { result ≡ named_to s.now }
{
    if !scan::starts(b"unit=", s) {
        return None;
    }
    let size = unit::run(&s[5..]);
    let e = 5 + size;
    if e == s.len() {
        return None;
    }
    if (size == 0) | (16 < size) | (s[e] != b'\n') {
        return None;
    }
    Some(e)
}

// A line with its key and its value, put at a place.
pub fn put_line(out: &mut [u8], at: usize, key: &[u8], v: &[u8]) -> usize
    requires { at + length key.now + length v.now + 1 < limit }
    ensures { Puts out.old at (line_text key.now v.now) result out.new }
{
    let a = put::put_text(out, at, key);
    let b = put::put_text(out, a, v);
    put::put_byte(out, b, b'\n')
}

// And one with a number.
pub fn put_number(out: &mut [u8], at: usize, key: &[u8], n: u64) -> usize
    requires { at + length key.now + 11 < limit }
    ensures { Puts out.old at (line_text key.now (whole_text 9 n)) result out.new }
{
    let a = put::put_text(out, at, key);
    let b = put::put_whole(out, a, 9, n);
    put::put_byte(out, b, b'\n')
}
