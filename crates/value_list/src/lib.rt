// The lists of a message: up to four numbers, and gradients of one to sixteen triples.
#![tactic(auto)]

pub mod few;
pub mod triples;

ghost use Rattle.std.specs.Prelude.{◌+◌, ◌≤◌, length, drop, ◌≡◌};
ghost use Rattle.text.specs.Bytes.{first_of};

// Where the part of a list that starts at a place ends: at the next separator, or with the text.
fn part_end(s: &[u8], at: usize, sep: u8) -> usize
    requires { at ≤ length s.now }
    ensures { result ≡ at + first_of sep (drop at s.now) }
{
    at + text::scan::first(&s[at..], sep)
}

// Up to four numbers in thousandths; those past the count are zero.
#[derive(Clone, Copy, PartialEq, Eq)]
pub struct Numbers {
    pub count: u8,
    pub first: i32,
    pub second: i32,
    pub third: i32,
    pub fourth: i32,
}

// A band of power with its gradient, in thousandths.
#[derive(Clone, Copy, PartialEq, Eq)]
pub struct Triple {
    pub low: i32,
    pub high: i32,
    pub gradient: i32,
}

// Triples in a fixed room; those past the count are zero.
#[derive(Clone, Copy, PartialEq, Eq)]
pub struct Gradients {
    pub count: usize,
    pub values: [Triple; 16],
}
