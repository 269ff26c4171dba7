// Looking at bytes and handing on parts of them.
ghost use Rattle.std.specs.Prelude.{ℕ, ◌+◌, ◌≤◌, ◌<◌, Bool, not, length, take, drop, reverse, take_while, ◌≡◌};
ghost use Rattle.text.specs.Bytes.{part, same, starts, all, any, is, run_of, skip_end, first_of, trim, is_blank};

use crate::words;

// Eight bytes of both from i on: eight tests without a branch between them, which compile to one compare of two words. (As two numbers of eight
// bytes they compile to the same, but `alike` is then too large to be taken into its callers: 23 % slower with a plan of 64 rows.)
fn eight_alike(a: &[u8], b: &[u8], i: usize) -> bool
    requires { (i + 8 ≤ length a.now) × (i + 8 ≤ length b.now) }
    ensures { result ≡ same (part i (i + 8) a.now) (part i (i + 8) b.now) }
{
    (a[i] == b[i])
        & (a[i + 1] == b[i + 1])
        & (a[i + 2] == b[i + 2])
        & (a[i + 3] == b[i + 3])
        & (a[i + 4] == b[i + 4])
        & (a[i + 5] == b[i + 5])
        & (a[i + 6] == b[i + 6])
        & (a[i + 7] == b[i + 7])
}

// Four to seven bytes: the first four and the last four, which may overlap.
fn fours_alike(a: &[u8], b: &[u8], n: usize) -> bool
    requires { (4 ≤ n) × (n < 8) × (n ≤ length a.now) × (n ≤ length b.now) }
    ensures { result ≡ same (take n a.now) (take n b.now) }
{
    let last = n - 4;
    (words::four(a, 0) == words::four(b, 0)) & (words::four(a, last) == words::four(b, last))
}

// Fewer than four bytes, one by one.
fn few_alike(a: &[u8], b: &[u8], n: usize) -> bool
    requires { (n ≤ length a.now) × (n ≤ length b.now) }
    ensures { result ≡ same (take n a.now) (take n b.now) }
{
    for i in 0..n {
        if a[i] != b[i] {
            return false;
        }
    }
    true
}

// Whether both begin with the same n bytes: eight at a time, the last eight of them perhaps once more, which is cheaper than the rest one by one.
fn alike(a: &[u8], b: &[u8], n: usize) -> bool
    requires { (n ≤ length a.now) × (n ≤ length b.now) }
    ensures { result ≡ same (take n a.now) (take n b.now) }
{
    if n < 4 {
        return few_alike(a, b, n);
    }
    if n < 8 {
        return fours_alike(a, b, n);
    }
    for k in 0..(n - 1) / 8 {
        if !eight_alike(a, b, 8 * k) {
            return false;
        }
    }
    eight_alike(a, b, n - 8)
}

// Whether two texts are the same, byte by byte.
pub fn same(a: &[u8], b: &[u8]) -> bool
    ensures { result ≡ same a.now b.now }
{
    a.len() == b.len() && alike(a, b, a.len())
}

// Whether s begins with t.
pub fn starts(t: &[u8], s: &[u8]) -> bool
    ensures { result ≡ starts t.now s.now }
{
    t.len() <= s.len() && alike(t, s, t.len())
}

// A test on a byte. Eight bytes are tested at a time, so a test should have no branch in it.
pub trait ByteTest {
    ghost passes: { Self → ℕ → Bool };

    fn passes(&self, b: u8) -> bool
        ensures { result ≡ passes self.now b };
}

// Whether it is this byte.
#[derive(Clone, Copy)]
pub struct IsByte(pub u8);

impl ByteTest for IsByte {
    ghost passes = { λ t. is t.0 };

    fn passes(&self, b: u8) -> bool {
        b == self.0
    }
}

// Whether it is another byte.
#[derive(Clone, Copy)]
struct NotByte(u8);

impl ByteTest for NotByte {
    ghost passes = { λ t b. not (is t.0 b) };

    fn passes(&self, b: u8) -> bool {
        b != self.0
    }
}

// Whether all of eight bytes pass, without a branch between the tests: compiled to one test of eight bytes at once.
fn eight_pass<T: ByteTest>(eight: &[u8], test: &T) -> bool
    requires { length eight.now ≡ 8 }
    ensures { result ≡ all (T.passes test.now) eight.now }
{
    test.passes(eight[0])
        & test.passes(eight[1])
        & test.passes(eight[2])
        & test.passes(eight[3])
        & test.passes(eight[4])
        & test.passes(eight[5])
        & test.passes(eight[6])
        & test.passes(eight[7])
}

// How many bytes from the start pass, one by one.
fn few_run<T: ByteTest>(s: &[u8], test: &T) -> usize
    ensures { result ≡ length (take_while (T.passes test.now) s.now) }
{
    s.iter().take_while(|b| test.passes(**b)).count()
}

// How many bytes from the start pass: eight at a time, and the rest one by one.
pub fn run<T: ByteTest>(s: &[u8], test: &T) -> usize
    ensures { result ≡ run_of (T.passes test.now) s.now }
{
    let mut n = 0;
    for eight in s.chunks_exact(8) {
        if !eight_pass(eight, test) {
            break;
        }
        n += 8;
    }
    n + few_run(&s[n..], test)
}

// How many bytes stand before the first b: all where there is none.
pub fn first(s: &[u8], b: u8) -> usize
    ensures { result ≡ first_of b s.now }
{
    run(s, &NotByte(b))
}

// How many blanks it begins with: a padded label is followed by many.
pub fn lead(s: &[u8]) -> usize
    ensures { result ≡ run_of is_blank s.now }
{
    run(s, &IsByte(b' '))
}

// Whether all bytes are zero: unused room is long.
pub fn are_zero(s: &[u8]) -> bool
    ensures { result ≡ all (is 0) s.now }
{
    run(s, &IsByte(0)) == s.len()
}

// How long it is without the blanks that it ends with.
pub fn filled(s: &[u8]) -> usize
    ensures { result ≡ length (skip_end is_blank s.now) }
{
    s.len() - blanks_at_end(s)
}

// How many blanks it ends with.
fn blanks_at_end(s: &[u8]) -> usize
    ensures { result ≡ length (take_while is_blank (reverse s.now)) }
{
    s.iter().rev().take_while(|b| **b == b' ').count()
}

// The part without the blanks at its two ends.
pub fn trim(s: &[u8]) -> &[u8]
    ensures { result.now ≡ trim s.now }
{
    let a = lead(s);
    let t = &s[a..];
    let e = filled(t);
    &t[..e]
}

// The first n bytes, or all where there are fewer.
pub fn front(s: &[u8], n: usize) -> &[u8]
    ensures { result.now ≡ take n s.now }
{
    &s[..n.min(s.len())]
}

// What stands after the first n bytes.
pub fn rest(s: &[u8], n: usize) -> &[u8]
    ensures { result.now ≡ drop n s.now }
{
    &s[n.min(s.len())..]
}
