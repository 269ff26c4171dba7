// Bytes as lowercase hex, `-` for none: those of a request are decoded where they stand, and those of an answer are printed.
ghost use Rattle.std.specs.Prelude.{◌<◌, IfSome};

use std::io::{self, Write};
use text::scan;

fn digit_of(b: u8) -> Option<u8>
    ensures { IfSome result (λ d. d < 16) }
{
    match b {
        b'0'..=b'9' => Some(b - b'0'),
        b'a'..=b'f' => Some(b - b'a' + 10),
        _ => None,
    }
}

// The bytes that a field writes, which then stand at its front: each pair of digits becomes a byte at or before it.
pub(crate) fn decode(field: &mut [u8]) -> Option<&[u8]> {
    if matches!(field, [b'-']) {
        return Some(&[]);
    }
    if field.is_empty() || field.len() % 2 != 0 {
        return None;
    }
    let size = field.len() / 2;
    for i in 0..size {
        field[i] = 16 * digit_of(field[2 * i])? + digit_of(field[2 * i + 1])?;
    }
    Some(&field[..size])
}

fn hex_digit(n: u8) -> u8 {
    match n {
        0..=9 => b'0' + n,
        10..=15 => b'a' + (n - 10),
        _ => b'?',
    }
}

// At most 2,048 bytes.
fn say_chunk<W: Write>(reply: &mut W, s: &[u8]) -> io::Result<()> {
    let mut digits = [[0u8; 2]; 2048];
    for (pair, b) in digits.iter_mut().zip(s) {
        *pair = [hex_digit(b / 16), hex_digit(b % 16)];
    }
    reply.write_all(scan::front(digits.as_flattened(), 2 * s.len()))
}

pub(crate) fn say_hex<W: Write>(reply: &mut W, s: &[u8]) -> io::Result<()> {
    if s.is_empty() {
        return reply.write_all(b"-");
    }
    for chunk in s.chunks(2048) {
        say_chunk(reply, chunk)?;
    }
    Ok(())
}
