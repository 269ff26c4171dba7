// One line: its value as one number, read and put.
ghost use Rattle.std.specs.Prelude.{◌+◌, ◌<◌, ◌≡◌};
ghost use Rattle.saved_lines.specs.Values.{amount_of, letter_of, value_of, line_value, met_in, met_of, amount_text, letter_text, value_text, key_text, next_by, next_text};
ghost use Rattle.text.specs.Puts.{limit, Puts};

use crate::{Key, MOST_AMOUNT, Met, NextLine, Sort, ZERO_AMOUNT, keys};
use text::{put, scan};
use value_name::sequence;

// None is -0.
fn amount_of(s: &[u8]) -> Option<u64>
    ensures { result ≡ amount_of s.now }
{
    if scan::starts(b"-", s) {
        let Some(n) = text_keyline::whole(scan::rest(s, 1), 1, MOST_AMOUNT) else {
            return None;
        };
        return Some(ZERO_AMOUNT - n);
    }
    let Some(n) = text_keyline::whole(s, 0, MOST_AMOUNT) else {
        return None;
    };
    Some(ZERO_AMOUNT + n)
}

fn letter_of(s: &[u8]) -> Option<u64>
    ensures { result ≡ letter_of s.now }
{
    if scan::same(b"M", s) {
        return Some(0);
    }
    if scan::same(b"F", s) {
        return Some(1);
    }
    None
}

fn value_of(x: Sort, s: &[u8]) -> Option<u64>
    ensures { result ≡ value_of x s.now }
{
    match x {
        Sort::Whole => sequence::read(s),
        Sort::Amount => amount_of(s),
        Sort::Letter => letter_of(s),
    }
}

// The first line of a text, if it has this key and a value of this sort between the two.
fn line_says(x: NextLine, s: &[u8]) -> Met
    ensures { result ≡ met_in (line_value x.key x.sort x.least x.most s.now) s.now }
{
    let key = keys::key_of(x.key);
    let room = key.room;
    let Some(e) = text_keyline::line_of(scan::front(&room, key.size), s) else {
        return Met::Wrong;
    };
    let Some(v) = value_of(x.sort, scan::rest(scan::front(s, e), key.size)) else {
        return Met::Wrong;
    };
    if (v < x.least) | (x.most < v) {
        return Met::Wrong;
    }
    Met::Says(v, e)
}

pub fn meet(x: Option<NextLine>, s: &[u8]) -> Met
    ensures { result ≡ met_of (next_by x) s.now }
{
    match x {
        Some(line) => line_says(line, s),
        None => Met::Over,
    }
}

fn put_amount(out: &mut [u8], at: usize, v: u64) -> usize
    requires { at + 11 < limit }
    ensures { Puts out.old at (amount_text v) result out.new }
{
    if v < ZERO_AMOUNT {
        let a = put::put_byte(out, at, b'-');
        return put::put_whole(out, a, 9, ZERO_AMOUNT - v);
    }
    put::put_whole(out, at, 9, v - ZERO_AMOUNT)
}

fn put_letter(out: &mut [u8], at: usize, v: u64) -> usize
    requires { at + 1 < limit }
    ensures { Puts out.old at (letter_text v) result out.new }
{
    if v == 0 {
        return put::put_byte(out, at, b'M');
    }
    put::put_byte(out, at, b'F')
}

fn put_value(out: &mut [u8], at: usize, x: Sort, v: u64) -> usize
    requires { at + 11 < limit }
    ensures { Puts out.old at (value_text x v) result out.new }
{
    match x {
        Sort::Whole => put::put_whole(out, at, 9, v),
        Sort::Amount => put_amount(out, at, v),
        Sort::Letter => put_letter(out, at, v),
    }
}

fn put_key(out: &mut [u8], at: usize, k: Key) -> usize
    requires { at + 8 < limit }
    ensures { Puts out.old at (key_text k) result out.new }
{
    let key = keys::key_of(k);
    let room = key.room;
    put::put_text(out, at, scan::front(&room, key.size))
}

// The line with a value; nothing where no line comes.
pub fn put_next(out: &mut [u8], at: usize, x: Option<NextLine>, v: u64) -> usize
    requires { at + 20 < limit }
    ensures { Puts out.old at (next_text (next_by x) v) result out.new }
{
    match x {
        Some(line) => {
            let a = put_key(out, at, line.key);
            let b = put_value(out, a, line.sort, v);
            put::put_byte(out, b, b'\n')
        }
        None => at,
    }
}
