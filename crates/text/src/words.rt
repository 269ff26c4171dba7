// Eight bytes as one number, the first byte the lowest: compiled to one load, and to one store.
ghost use Rattle.std.specs.Prelude.{◌+◌, ◌≤◌, length, ◌≡◌};
ghost use Rattle.text.specs.Bytes.{part};
ghost use Rattle.text.specs.Words.{word_of, bytes_of};
ghost use Rattle.std.proofs.lemmas.List.Edits.{sets};

// The number of four bytes from i on.
pub fn four(s: &[u8], i: usize) -> u32
    requires { i + 4 ≤ length s.now }
    ensures { result ≡ word_of (part i (i + 4) s.now) }
{
    s[i] as u32 + s[i + 1] as u32 * 256 + s[i + 2] as u32 * 65536 + s[i + 3] as u32 * 16777216
}

// The number of eight bytes from i on, by its halves.
pub fn eight(s: &[u8], i: usize) -> u64
    requires { i + 8 ≤ length s.now }
    ensures { result ≡ word_of (part i (i + 8) s.now) }
{
    let low = four(s, i) as u64;
    let high = four(s, i + 4) as u64;
    low + high * 4294967296
}

// The number of the bytes from i on, eight of them or as many as there are.
pub fn upto(s: &[u8], i: usize) -> u64
    ensures { result ≡ word_of (part i (i + 8) s.now) }
{
    if s.len() <= i {
        return 0;
    }
    if 8 <= s.len() - i {
        return eight(s, i);
    }
    let mut w: u64 = 0;
    for k in (i..s.len()).rev() {
        w = w * 256 + u64::from(s[k]);
    }
    w
}

// The four bytes of a number, put from i on.
pub fn put_half(out: &mut [u8], i: usize, w: u32)
    requires { i + 4 ≤ length out.old }
    ensures { out.new ≡ sets out.old i (bytes_of 4 w) }
{
    out[i] = (w % 256) as u8;
    out[i + 1] = (w / 256 % 256) as u8;
    out[i + 2] = (w / 65536 % 256) as u8;
    out[i + 3] = (w / 16777216) as u8;
}

// The eight bytes of a number, put from i on.
pub fn put_word(out: &mut [u8], i: usize, w: u64)
    requires { i + 8 ≤ length out.old }
    ensures { out.new ≡ sets out.old i (bytes_of 8 w) }
{
    put_half(out, i, (w % 4294967296) as u32);
    put_half(out, i + 4, (w / 4294967296) as u32);
}
