// The numbers of a message: read into thousandths, and put in their shortest form.
#![tactic(auto)]

ghost use Rattle.std.specs.Prelude.{◌+◌, ◌-◌, ◌^◌, ◌≤◌, ◌<◌, eqb, pos, neg_ℤ, nat_abs, length, get_or, drop, false, cond, ◌∷◌, ◌≡◌};
ghost use Rattle.value_number.specs.Number.{fraction_of, joined_digits, unsigned_of, number_of, fraction_text, decimals_text, sign_text, number_text, before_at};
ghost use Rattle.value_number.specs.Number.{zero_fits, are_short};
ghost use Rattle.value_number.specs.Parts.{ended, part_end, part_number, is_of_number, part_body, with_sign, number_at};
ghost use Rattle.text.specs.Bytes.{all, is, upto, is_digit, is_blank, run_of};
ghost use Rattle.text.specs.Puts.{limit, Puts};

use text::{digits, put, scan};

// What one unit of the last of n decimals is worth, in thousandths.
fn scale(n: usize) -> u64
    requires { n ≤ 3 }
    ensures { result ≡ 10 ^ (3 - n) }
{
    match n {
        0 => 1000,
        1 => 100,
        2 => 10,
        _ => 1,
    }
}

// What stands from p on: nothing, or a point and 1 to 3 digits.
fn read_fraction(s: &[u8], p: usize) -> Option<u64>
    requires { p ≤ length s.now }
    ensures { result ≡ fraction_of (drop p s.now) }
{
    if p == s.len() {
        return Some(0);
    }
    let from = p + 1;
    let f = &s[from..];
    let Some(n) = digits::read_digits(f, 3) else {
        return None;
    };
    Some(n * scale(f.len()))
}

// A number without its sign: its first digits, and what follows them.
fn read_unsigned(s: &[u8]) -> Option<u64>
    ensures { result ≡ unsigned_of s.now }
{
    let w = digits::lead(s, 7);
    if (w.count == 0) | (w.count == 7) {
        return None;
    }
    let p = w.count;
    if p < s.len() {
        if s[p] != b'.' {
            return None;
        }
    }
    let Some(f) = read_fraction(s, p) else {
        return None;
    };
    Some(w.value * 1000 + f)
}

// A number of thousandths, above zero and below it.
pub fn positive(n: u64) -> i32
    requires { n < 1000000000 }
    ensures { result ≡ pos n }
{
    n as i32
}

pub fn negative(n: u64) -> i32
    requires { n < 1000000000 }
    ensures { result ≡ neg_ℤ (pos n) }
{
    -positive(n)
}

// n with its sign.
fn signed(minus: bool, n: u64) -> i32
    requires { n < 1000000000 }
    ensures { result ≡ cond minus (neg_ℤ (pos n)) (pos n) }
{
    if minus {
        return negative(n);
    }
    positive(n)
}

pub fn read(s: &[u8]) -> Option<i32>
    ensures { result ≡ number_of s.now }
{
    if s.len() == 0 {
        return None;
    }
    if s[0] == b'-' {
        let Some(n) = read_unsigned(&s[1..]) else {
            return None;
        };
        return Some(signed(true, n));
    }
    let Some(n) = read_unsigned(s) else {
        return None;
    };
    Some(signed(false, n))
}

// A number of a list, with where its part ends.
#[derive(Clone, Copy)]
pub struct NumberAt {
    pub number: i32,
    pub end: usize,
}

// Whether a byte may stand in a part that is a number: no such byte may be passed over as what ends one.
fn is_of_number(b: u8) -> bool
    ensures { result ≡ is_of_number b }
{
    digits::is_digit(b) | (b == b'.') | (b == b'-') | (b == b' ')
}

// Where the blanks at a place end: there is seldom one.
fn past_blanks(s: &[u8], at: usize) -> usize
    requires { at ≤ length s.now }
    ensures { result ≡ at + run_of is_blank (drop at s.now) }
{
    at + s[at..].iter().take_while(|b| **b == b' ').count()
}

// What must follow the number v: blanks, and then the separator or the end.
fn close(s: &[u8], at: usize, sep: u8, v: i32) -> Option<NumberAt>
    requires { (at ≤ length s.now) × (is_of_number sep ≡ false) }
    ensures { result ≡ cond (all is_blank (upto (is sep) (drop at s.now))) (number_at v (part_end sep s.now at)) None }
{
    let e = past_blanks(s, at);
    if e < s.len() {
        if s[e] != sep {
            return None;
        }
    }
    Some(NumberAt { number: v, end: e })
}

// The decimals from a place on, behind a whole number and its point.
fn decimals_part(s: &[u8], at: usize, sep: u8, minus: bool, whole: u64) -> Option<NumberAt>
    requires { (at ≤ length s.now) × (is_of_number sep ≡ false) × (whole < 1000000) }
    ensures { result ≡ ended (with_sign minus (joined_digits (Some whole) (fraction_of (46 ∷ part_body sep (drop at s.now))))) (part_end sep s.now at) }
{
    let f = digits::lead(&s[at..], 4);
    if (f.count == 0) | (f.count == 4) {
        return None;
    }
    let n = whole * 1000 + f.value * scale(f.count);
    close(s, at + f.count, sep, signed(minus, n))
}

// A number without its sign from a place on.
fn unsigned_part(s: &[u8], at: usize, sep: u8, minus: bool) -> Option<NumberAt>
    requires { (at ≤ length s.now) × (is_of_number sep ≡ false) }
    ensures { result ≡ ended (with_sign minus (unsigned_of (part_body sep (drop at s.now)))) (part_end sep s.now at) }
{
    let whole = digits::lead(&s[at..], 7);
    if (whole.count == 0) | (whole.count == 7) {
        return None;
    }
    let p = at + whole.count;
    if is_at(s, p, b'.') {
        return decimals_part(s, p + 1, sep, minus, whole.value);
    }
    close(s, p, sep, signed(minus, whole.value * 1000))
}

// A part that is cut before it is read, as for a separator that is itself of a number.
fn cut_part(s: &[u8], at: usize, sep: u8) -> Option<NumberAt>
    requires { at ≤ length s.now }
    ensures { result ≡ part_number sep s.now at }
{
    let rest = &s[at..];
    let n = scan::first(rest, sep);
    match read(scan::trim(&rest[..n])) {
        Some(v) => Some(NumberAt {
            number: v,
            end: at + n,
        }),
        None => None,
    }
}

// The number of the part that starts at a place, read where it stands.
pub fn read_part(s: &[u8], at: usize, sep: u8) -> Option<NumberAt>
    requires { at ≤ length s.now }
    ensures { result ≡ part_number sep s.now at }
{
    if is_of_number(sep) {
        return cut_part(s, at, sep);
    }
    let from = past_blanks(s, at);
    if is_at(s, from, b'-') {
        return unsigned_part(s, from + 1, sep, true);
    }
    unsigned_part(s, from, sep, false)
}

// How far it is from zero.
pub fn magnitude(x: i32) -> u64
    ensures { result ≡ nat_abs x }
{
    if x < 0 {
        (-(x as i64)) as u64
    } else {
        x as u64
    }
}

// Decimals without their trailing zeros.
#[derive(Clone, Copy)]
struct Decimals {
    size: usize,
    value: u64,
}

fn without_zeros(f: u64) -> Decimals
    ensures { (result.size ≤ 3) × (fraction_text 3 f ≡ decimals_text result.size result.value) }
{
    let mut g = f;
    for cut in 0..3 {
        if g % 10 != 0 {
            return Decimals {
                size: 3 - cut,
                value: g,
            };
        }
        g = g / 10;
    }
    Decimals { size: 0, value: 0 }
}

fn put_sign(out: &mut [u8], at: usize, v: i32) -> usize
    requires { at + 1 < limit }
    ensures { Puts out.old at (sign_text v) result out.new }
{
    if v < 0 {
        return put::put_byte(out, at, b'-');
    }
    at
}

fn put_decimals(out: &mut [u8], at: usize, d: Decimals) -> usize
    requires { (at + 4 < limit) × (d.size ≤ 3) }
    ensures { Puts out.old at (decimals_text d.size d.value) result out.new }
{
    let k = d.size;
    if k == 0 {
        return at;
    }
    let from = put::put_byte(out, at, b'.');
    put::put_digits(out, from, k, d.value)
}

// The shortest form of v thousandths, put at a place.
pub fn put(out: &mut [u8], at: usize, v: i32) -> usize
    requires { at + 20 < limit }
    ensures { Puts out.old at (number_text v) result out.new }
{
    let m = magnitude(v);
    let d = without_zeros(m % 1000);
    let a = put_sign(out, at, v);
    let b = put::put_whole(out, a, 6, m / 1000);
    put_decimals(out, b, d)
}

fn is_digit_at(s: &[u8], i: usize) -> bool
    ensures { result ≡ is_digit (get_or s.now i 0) }
{
    i < s.len() && digits::is_digit(s[i])
}

fn is_at(s: &[u8], i: usize, b: u8) -> bool
    requires { 1 ≤ b }
    ensures { result ≡ eqb (get_or s.now i 0) b }
{
    i < s.len() && s[i] == b
}

// A zero of a number that stands at i: it may end whole numbers, and stand before a point; it leads nothing, ends no decimals, and has no sign alone.
#[tactic(auto, unfolding(crate::specs::Number::zero_fits))]
fn zero_fits(s: &[u8], i: usize, fraction: bool) -> bool
    requires { i < length s.now }
    ensures { result ≡ zero_fits (before_at i s.now) fraction (get_or s.now (i + 1) 0) }
{
    if is_digit_at(s, i + 1) {
        return fraction || (0 < i && digits::is_digit(s[i - 1]));
    }
    !fraction && (is_at(s, i + 1, b'.') || i == 0 || s[i - 1] != b'-')
}

// Whether numbers, with `;` or `,` between them, stand in their shortest form and without blanks. Of texts that are such numbers.
pub fn are_short(s: &[u8]) -> bool
    ensures { result ≡ are_short s.now }
{
    let mut fraction = false;
    for i in 0..s.len() {
        let b = s[i];
        if b == b' ' {
            return false;
        }
        if b == b'0' {
            if !zero_fits(s, i, fraction) {
                return false;
            }
        }
        fraction = (b == b'.') | (fraction & (b != b';') & (b != b','));
    }
    true
}
