// Putting bytes into a lent buffer. A put writes what there is room for and answers the place past its text,
// so the same functions give a text's length, on an empty part of the buffer, and then its bytes.
ghost use Rattle.std.specs.Prelude.{◌+◌, ◌-◌, min, ◌≤◌, ◌<◌, length, take, [], ◌∷◌, ◌≡◌};
ghost use Rattle.text.specs.Bytes.{part};
ghost use Rattle.text.specs.Digits.{digits_text, whole_text};
ghost use Rattle.text.specs.Puts.{limit, Puts};
ghost use Rattle.std.proofs.lemmas.List.Edits.{sets};

use crate::{digits, words};

pub fn put_byte(out: &mut [u8], at: usize, b: u8) -> usize
    requires { at + 1 < limit }
    ensures { (result ≡ at + 1) × (out.new ≡ sets out.old at (b ∷ [])) }
{
    if at < out.len() {
        out[at] = b;
    }
    at + 1
}

// How many of n bytes from a place on the buffer has.
fn room_for(out: &[u8], at: usize, n: usize) -> usize
    ensures { result ≡ min n (length out.now - at) }
{
    n.min(out.len().saturating_sub(at))
}

// Eight bytes of t from i on, put at a place as one number: all are read before one is written, so that they are moved at once.
fn put_eight(out: &mut [u8], at: usize, t: &[u8], i: usize)
    requires { (at + 8 ≤ length out.old) × (i + 8 ≤ length t.now) }
    ensures { out.new ≡ sets out.old at (part i (i + 8) t.now) }
{
    words::put_word(out, at, words::eight(t, i));
}

// The first n bytes of t, fewer than eight.
fn put_few(out: &mut [u8], at: usize, t: &[u8], n: usize)
    requires { (at + n ≤ length out.old) × (n ≤ length t.now) }
    ensures { out.new ≡ sets out.old at (take n t.now) }
{
    for i in 0..n {
        out[at + i] = t[i];
    }
}

// The first n bytes of t: eight at a time, the last eight of them perhaps partly once more.
fn put_first(out: &mut [u8], at: usize, t: &[u8], n: usize)
    requires { (at + n ≤ length out.old) × (n ≤ length t.now) }
    ensures { out.new ≡ sets out.old at (take n t.now) }
{
    if n < 8 {
        put_few(out, at, t, n);
        return;
    }
    for k in 0..(n - 1) / 8 {
        put_eight(out, at + 8 * k, t, 8 * k);
    }
    put_eight(out, at + n - 8, t, n - 8);
}

// One test of the room for the whole text.
pub fn put_text(out: &mut [u8], at: usize, t: &[u8]) -> usize
    requires { at + length t.now < limit }
    ensures { Puts out.old at t.now result out.new }
{
    let n = room_for(out, at, t.len());
    if n != 0 {
        put_first(out, at, t, n);
    }
    at + t.len()
}

// The last k digits of n, the last one first, one by one, as far as there is room.
fn put_digits_clipped(out: &mut [u8], at: usize, k: usize, n: u64) -> usize
    requires { (at + k < limit) × (k ≤ 10) }
    ensures { (result ≡ at + k) × (out.new ≡ sets out.old at (digits_text k n)) }
{
    let mut m = n;
    for j in (0..k).rev() {
        put_byte(out, at + j, b'0' + (m % 10) as u8);
        m /= 10;
    }
    at + k
}

// The last k digits of n: a division by ten is cheap, one by a power of ten is not. With room for all of them two at a time, the last ones first.
pub fn put_digits(out: &mut [u8], at: usize, k: usize, n: u64) -> usize
    requires { (at + k < limit) × (k ≤ 10) }
    ensures { (result ≡ at + k) × (out.new ≡ sets out.old at (digits_text k n)) }
{
    if out.len() < at + k {
        return put_digits_clipped(out, at, k, n);
    }
    let mut m = n;
    for i in 0..k / 2 {
        let j = k - 2 * i - 2;
        let two = m % 100;
        out[at + j] = b'0' + (two / 10) as u8;
        out[at + j + 1] = b'0' + (two % 10) as u8;
        m /= 100;
    }
    if k % 2 == 1 {
        out[at] = b'0' + (m % 10) as u8;
    }
    at + k
}

// n without leading zeros, of at most k + 1 digits.
pub fn put_whole(out: &mut [u8], at: usize, k: usize, n: u64) -> usize
    requires { (at + 10 < limit) × (k ≤ 9) }
    ensures { Puts out.old at (whole_text k n) result out.new }
{
    let size = digits::whole_size(n, k);
    put_digits(out, at, size, n)
}
