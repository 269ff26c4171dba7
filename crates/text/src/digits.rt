// Decimal digits: reading them, and how many a number has.
ghost use Rattle.std.specs.Prelude.{◌^◌, ◌≤◌, ◌<◌, ◌≡◌};
ghost use Rattle.text.specs.Bytes.{is_digit};
ghost use Rattle.text.specs.Digits.{digits_of, lead_of, digits_text, whole_text};

pub fn is_digit(b: u8) -> bool
    ensures { result ≡ is_digit b }
{
    matches!(b, b'0'..=b'9')
}

// The number that s writes, where it is 1 to most digits and nothing else.
pub fn read_digits(s: &[u8], most: usize) -> Option<u64>
    requires { most ≤ 10 }
    ensures { result ≡ digits_of most s.now }
{
    if s.len() == 0 {
        return None;
    }
    if most < s.len() {
        return None;
    }
    let mut acc: u64 = 0;
    for &b in s {
        if !is_digit(b) {
            return None;
        }
        acc = acc * 10 + u64::from(b - b'0');
    }
    Some(acc)
}

// The digits that a text begins with: how many, and the number that they write.
#[derive(Clone, Copy)]
pub struct Led {
    pub count: usize,
    pub value: u64,
}

// The first digits of s, at most `most` of them.
pub fn lead(s: &[u8], most: usize) -> Led
    requires { most ≤ 10 }
    ensures { result ≡ lead_of most s.now }
{
    let mut value: u64 = 0;
    let end = s.len().min(most);
    for i in 0..end {
        if !is_digit(s[i]) {
            return Led { count: i, value };
        }
        value = value * 10 + u64::from(s[i] - b'0');
    }
    Led { count: end, value }
}

pub fn pow10(k: usize) -> u64
    requires { k ≤ 10 }
    ensures { result ≡ 10 ^ k }
{
    match k {
        0 => 1,
        1 => 10,
        2 => 100,
        3 => 1000,
        4 => 10000,
        5 => 100000,
        6 => 1000000,
        7 => 10000000,
        8 => 100000000,
        9 => 1000000000,
        _ => 10000000000,
    }
}

// How many digits n has without leading zeros, at most k + 1 of them.
pub fn whole_size(n: u64, k: usize) -> usize
    requires { k ≤ 9 }
    ensures { (1 ≤ result) × (result ≤ 10) × (whole_text k n ≡ digits_text result n) }
{
    for j in 1..=k {
        if n < pow10(j) {
            return j;
        }
    }
    k + 1
}
