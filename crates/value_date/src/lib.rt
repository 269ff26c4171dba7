// Dates of a message: read, judged by the calendar, put, and their instants.
#![tactic(auto)]

ghost use Rattle.std.specs.Prelude.{◌+◌, ◌-◌, ◌*◌, ◌^◌, ◌≤◌, ◌<◌, length, take, drop, true, ◌∷◌, ◌≡◌};
ghost use Rattle.value_date.specs.Date.{fits_byte, shaped, date_shape, field_at, date_parts, days_in, is_real, date_of, days_of, hours_ahead, clock_of, instant_of};
ghost use Rattle.value_date.specs.Date.{before, day_text, time_text, letter, letter_text, date_text};
ghost use Rattle.text.specs.Bytes.{all, is_digit};
ghost use Rattle.text.specs.Digits.{digits_text};
ghost use Rattle.text.specs.Puts.{limit};
ghost use Rattle.std.proofs.lemmas.List.Edits.{sets};

use text::{digits, put};

// A date as it is written, kept whole. The year has four bytes, so that no number of a date lies across two words of a value that holds it: else each
// value read would take a way through memory.
#[derive(Clone, Copy, PartialEq, Eq)]
pub struct Date {
    pub year: u32,
    pub month: u8,
    pub day: u8,
    pub hour: u8,
    pub minute: u8,
    pub second: u8,
    // the letter is L, summer time, and not S
    pub legal: bool,
}

fn fits_byte(p: u8, b: u8) -> bool
    ensures { result ≡ fits_byte p b }
{
    match p {
        b'0' => digits::is_digit(b),
        b'L' => (b == b'L') | (b == b'S'),
        _ => b == p,
    }
}

// Whether s is shaped as shape says, byte by byte.
fn has_shape(shape: &[u8], s: &[u8]) -> bool
    ensures { result ≡ shaped shape.now s.now }
{
    shape.len() == s.len() && shape.iter().zip(s).all(|(p, b)| fits_byte(*p, *b))
}

// The number that the n digits at a place write.
fn field(s: &[u8], at: usize, n: usize) -> u64
    requires { (1 ≤ n) × (n ≤ 4) × (at + n ≤ length s.now) × (all is_digit (take n (drop at s.now)) ≡ true) }
    ensures { (result ≡ field_at s.now at n) × (result < 10 ^ n) }
{
    let end = at + n;
    match digits::read_digits(&s[at..end], n) {
        Some(v) => v,
        None => 0,
    }
}

// The number that the two digits at a place write.
fn pair(s: &[u8], at: usize) -> u8
    requires { (at + 2 ≤ length s.now) × (all is_digit (take 2 (drop at s.now)) ≡ true) }
    ensures { result ≡ field_at s.now at 2 }
{
    field(s, at, 2) as u8
}

fn fields(s: &[u8]) -> Date
    requires { shaped date_shape s.now ≡ true }
    ensures { result ≡ date_parts s.now }
{
    let day = pair(s, 0);
    let month = pair(s, 3);
    let year = field(s, 6, 4) as u32;
    let hour = pair(s, 11);
    let minute = pair(s, 14);
    let second = pair(s, 17);
    let legal = s[20] == b'L';
    Date {
        year,
        month,
        day,
        hour,
        minute,
        second,
        legal,
    }
}

fn days_in(year: u32, month: u8) -> u8
    ensures { result ≡ days_in year month }
{
    match month {
        2 => if year % 4 == 0 { 29 } else { 28 },
        4 | 6 | 9 | 11 => 30,
        _ => 31,
    }
}

// Whether there is such a date: document 01's years, a day of the calendar, a time of the clock.
pub fn is_real(d: Date) -> bool
    ensures { result ≡ is_real d }
{
    let y = d.year;
    let m = d.month;
    let last = days_in(y, m);
    ((2001 <= y) & (y <= 2099))
        & ((1 <= m) & (m <= 12))
        & ((1 <= d.day) & (d.day <= last))
        & (d.hour <= 23)
        & (d.minute <= 59)
        & (d.second <= 59)
}

pub fn read(s: &[u8]) -> Option<Date>
    ensures { result ≡ date_of s.now }
{
    if !has_shape(b"00-00-0000 00:00:00 L", s) {
        return None;
    }
    let d = fields(s);
    if is_real(d) { Some(d) } else { None }
}

// The days of the first months of a common year; a month past the twelfth has 31.
fn days_before(months: u8) -> u64
    ensures { result ≡ days_of 2001 months }
{
    match months {
        0 => 0,
        1 => 31,
        2 => 59,
        3 => 90,
        4 => 120,
        5 => 151,
        6 => 181,
        7 => 212,
        8 => 243,
        9 => 273,
        10 => 304,
        11 => 334,
        _ => 365 + 31 * (months as u64 - 12),
    }
}

// The day that a leap year has more in its first months.
fn leap_day(year: u32, months: u8) -> u64
    ensures { days_of year months ≡ days_of 2001 months + result }
{
    if (2 <= months) & (year % 4 == 0) {
        1
    } else {
        0
    }
}

// The days of the first months of a year.
fn days_of(year: u32, months: u8) -> u64
    ensures { (result ≡ days_of year months) × (result ≤ 31 * months) }
{
    days_before(months) + leap_day(year, months)
}

// How far a letter's clock is ahead of UTC, in seconds.
fn ahead_of(legal: bool) -> u64
    ensures { result ≡ hours_ahead legal }
{
    if legal { 7200 } else { 3600 }
}

// Seconds that the clock has shown since its 2000 began.
fn clock(d: Date) -> u64
    ensures { result ≡ clock_of d }
{
    let y = d.year as u64;
    let months = d.month.saturating_sub(1);
    let in_year = days_of(d.year, months) + (d.day as u64).saturating_sub(1);
    let days = 365 * y.saturating_sub(2000) + y.saturating_sub(1997) / 4 + in_year;
    86400 * days + (3600 * (d.hour as u64) + 60 * (d.minute as u64) + d.second as u64)
}

// Seconds since 2000 began in UTC.
pub fn instant(d: Date) -> u64
    ensures { result ≡ instant_of d }
{
    clock(d).saturating_sub(ahead_of(d.legal))
}

// Whether a's instant is before b's.
pub fn is_before(a: Date, b: Date) -> bool
    ensures { result ≡ before a b }
{
    instant(a) < instant(b)
}

// A mark and the last k digits of n.
fn put_marked(out: &mut [u8], at: usize, mark: u8, k: usize, n: u64) -> usize
    requires { (at + k + 1 < limit) × (k ≤ 4) }
    ensures { (result ≡ at + 1 + k) × (out.new ≡ sets out.old at (mark ∷ digits_text k n)) }
{
    let from = put::put_byte(out, at, mark);
    put::put_digits(out, from, k, n)
}

fn put_day(out: &mut [u8], at: usize, d: Date) -> usize
    requires { at + 10 < limit }
    ensures { (result ≡ at + 10) × (out.new ≡ sets out.old at (day_text d)) }
{
    let a = put::put_digits(out, at, 2, d.day as u64);
    let b = put_marked(out, a, b'-', 2, d.month as u64);
    put_marked(out, b, b'-', 4, d.year as u64)
}

fn put_time(out: &mut [u8], at: usize, d: Date) -> usize
    requires { at + 9 < limit }
    ensures { (result ≡ at + 9) × (out.new ≡ sets out.old at (time_text d)) }
{
    let a = put_marked(out, at, b' ', 2, d.hour as u64);
    let b = put_marked(out, a, b':', 2, d.minute as u64);
    put_marked(out, b, b':', 2, d.second as u64)
}

fn letter_of(legal: bool) -> u8
    ensures { result ≡ letter legal }
{
    if legal { b'L' } else { b'S' }
}

fn put_letter(out: &mut [u8], at: usize, legal: bool) -> usize
    requires { at + 2 < limit }
    ensures { (result ≡ at + 2) × (out.new ≡ sets out.old at (letter_text legal)) }
{
    let from = put::put_byte(out, at, b' ');
    put::put_byte(out, from, letter_of(legal))
}

// The date as it is written, 21 bytes, put at a place.
pub fn put(out: &mut [u8], at: usize, d: Date) -> usize
    requires { at + 21 < limit }
    ensures { (result ≡ at + 21) × (out.new ≡ sets out.old at (date_text d)) }
{
    let a = put_day(out, at, d);
    let b = put_time(out, a, d);
    put_letter(out, b, d.legal)
}
