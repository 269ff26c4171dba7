// Up to four numbers between separators.
ghost use Rattle.std.specs.Prelude.{◌+◌, ◌≤◌, ◌<◌, pos, length, get_or, [], ◌∷◌, ◌≡◌};
ghost use Rattle.value_list.specs.Forms.{list_of, numbers_in, numbers_text, profile_of, bands_of};
ghost use Rattle.text.specs.Puts.{limit, Puts};

use crate::Numbers;
use text::put;

// The first count of four values, as a list.
fn are(count: usize, values: [i32; 4]) -> Numbers
    requires { count ≤ 4 }
    ensures { result ≡ (record { count = count; first = get_or values 0 (pos 0); second = get_or values 1 (pos 0); third = get_or values 2 (pos 0); fourth = get_or values 3 (pos 0) }) }
{
    Numbers {
        count: count as u8,
        first: values[0],
        second: values[1],
        third: values[2],
        fourth: values[3],
    }
}

// The numbers between separators, least to most of them.
pub fn read(s: &[u8], sep: u8, least: usize, most: usize) -> Option<Numbers>
    requires { most ≤ 4 }
    ensures { result ≡ numbers_in sep least most s.now }
{
    let mut values = [0i32; 4];
    let mut at = 0;
    for n in 0..most {
        let part = value_number::read_part(s, at, sep)?;
        values[n] = part.number;
        let count = n + 1;
        if part.end == s.len() {
            if count < least {
                return None;
            }
            return Some(are(count, values));
        }
        at = part.end + 1;
    }
    None
}

// A line of a ramp profile: one to four numbers.
pub fn read_profile(s: &[u8]) -> Option<Numbers>
    ensures { result ≡ profile_of s.now }
{
    read(s, b';', 1, 4)
}

// The two half-bands, upwards and downwards.
pub fn read_bands(s: &[u8]) -> Option<Numbers>
    ensures { result ≡ bands_of s.now }
{
    read(s, b';', 2, 2)
}

fn nth(x: Numbers, i: usize) -> i32
    ensures { result ≡ get_or (x.first ∷ x.second ∷ x.third ∷ x.fourth ∷ []) i (pos 0) }
{
    match i {
        0 => x.first,
        1 => x.second,
        2 => x.third,
        3 => x.fourth,
        _ => 0,
    }
}

// How many numbers are held: never more than there is room for.
fn held(x: Numbers) -> usize
    ensures { (result ≡ length (list_of x)) × (result ≤ 4) }
{
    (x.count as usize).min(4)
}

// The numbers with the separator between them, put at a place.
pub fn put(out: &mut [u8], at: usize, x: Numbers, sep: u8) -> usize
    requires { at + 100 < limit }
    ensures { Puts out.old at (numbers_text sep x) result out.new }
{
    let n = held(x);
    if n == 0 {
        return at;
    }
    let mut p = value_number::put(out, at, x.first);
    for i in 1..n {
        let q = put::put_byte(out, p, sep);
        p = value_number::put(out, q, nth(x, i));
    }
    p
}
