// The constants of the layouts, as words numbered once for all of them. One table serves the reader and the writer.
#![tactic(auto)]

pub mod names;

ghost use Rattle.std.specs.Prelude.{◌+◌, ◌-◌, ◌<◌, get_or, [], ◌≡◌};
ghost use Rattle.text.specs.Puts.{limit, Puts};
ghost use Rattle.value_word.specs.Words.{command_words, mode_words, setting_words, word, word_in, volt_in, is_joined, room_spelling, spelling_of};

use text::{put, scan, words};

// A word as two numbers of eight bytes and one of four, the first byte of each the lowest, past its end zero; and how long it is.
#[derive(Clone, Copy, PartialEq, Eq)]
pub struct Spelling {
    pub size: usize,
    pub first: u64,
    pub second: u64,
    pub last: u64,
}

fn spelt(size: usize, text: [u8; 20]) -> Spelling
    ensures { result ≡ room_spelling size text }
{
    Spelling {
        size,
        first: words::eight(&text, 0),
        second: words::eight(&text, 8),
        last: words::four(&text, 16) as u64,
    }
}

fn no_word() -> Spelling
    ensures { result ≡ spelling_of [] }
{
    spelt(0, *b"\0\0\0\0\0\0\0\0\0\0\0\0\0\0\0\0\0\0\0\0")
}

// Words 1 to 12, from 0: the words of CB, EB, LB and SR.
fn command_word(k: u8) -> Spelling
    ensures { result ≡ spelling_of (get_or command_words k []) }
{
    match k {
        0 => spelt(7, *b"NORMALE\0\0\0\0\0\0\0\0\0\0\0\0\0"),
        1 => spelt(4, *b"STAI\0\0\0\0\0\0\0\0\0\0\0\0\0\0\0\0"),
        2 => spelt(19, *b"MANTIENI DIFFERENZA\0"),
        3 => spelt(2, *b"SI\0\0\0\0\0\0\0\0\0\0\0\0\0\0\0\0\0\0"),
        4 => spelt(2, *b"NO\0\0\0\0\0\0\0\0\0\0\0\0\0\0\0\0\0\0"),
        5 => spelt(5, *b"GAUDI\0\0\0\0\0\0\0\0\0\0\0\0\0\0\0"),
        6 => spelt(5, *b"SCWEB\0\0\0\0\0\0\0\0\0\0\0\0\0\0\0"),
        7 => spelt(2, *b"SA\0\0\0\0\0\0\0\0\0\0\0\0\0\0\0\0\0\0"),
        8 => spelt(2, *b"DA\0\0\0\0\0\0\0\0\0\0\0\0\0\0\0\0\0\0"),
        9 => spelt(11, *b"SOSPENSIONE\0\0\0\0\0\0\0\0\0"),
        10 => spelt(11, *b"INSERIMENTO\0\0\0\0\0\0\0\0\0"),
        11 => spelt(9, *b"PROGRAMMA\0\0\0\0\0\0\0\0\0\0\0"),
        _ => no_word(),
    }
}

// Words 13 to 22, from 0: the state, mode and regulation of VQ.
fn mode_word(k: u8) -> Spelling
    ensures { result ≡ spelling_of (get_or mode_words k []) }
{
    match k {
        0 => spelt(1, *b"I\0\0\0\0\0\0\0\0\0\0\0\0\0\0\0\0\0\0\0"),
        1 => spelt(1, *b"E\0\0\0\0\0\0\0\0\0\0\0\0\0\0\0\0\0\0\0"),
        2 => spelt(3, *b"RRT\0\0\0\0\0\0\0\0\0\0\0\0\0\0\0\0\0"),
        3 => spelt(3, *b"RTS\0\0\0\0\0\0\0\0\0\0\0\0\0\0\0\0\0"),
        4 => spelt(3, *b"RAT\0\0\0\0\0\0\0\0\0\0\0\0\0\0\0\0\0"),
        5 => spelt(3, *b"MAN\0\0\0\0\0\0\0\0\0\0\0\0\0\0\0\0\0"),
        6 => spelt(19, *b"PROFILO MEMORIZZATO\0"),
        7 => spelt(5, *b"VSRIF\0\0\0\0\0\0\0\0\0\0\0\0\0\0\0"),
        8 => spelt(13, *b"TENSIONE (MT)\0\0\0\0\0\0\0"),
        9 => spelt(16, *b"POTENZA REATTIVA\0\0\0\0"),
        _ => no_word(),
    }
}

// Words 23 to 31, from 0: the settings of VQ, and QR.
fn setting_word(k: u8) -> Spelling
    ensures { result ≡ spelling_of (get_or setting_words k []) }
{
    match k {
        0 => spelt(5, *b"V MAX\0\0\0\0\0\0\0\0\0\0\0\0\0\0\0"),
        1 => spelt(5, *b"V MIN\0\0\0\0\0\0\0\0\0\0\0\0\0\0\0"),
        2 => spelt(3, *b"Q=0\0\0\0\0\0\0\0\0\0\0\0\0\0\0\0\0\0"),
        3 => spelt(20, *b"MAX SOVRAECCITAZIONE"),
        4 => spelt(20, *b"MAX SOTTOECCITAZIONE"),
        5 => spelt(18, *b"RISERVA A SCENDERE\0\0"),
        6 => spelt(16, *b"RISERVA A SALIRE\0\0\0\0"),
        7 => spelt(11, *b"FINO A PMIN\0\0\0\0\0\0\0\0\0"),
        8 => spelt(11, *b"FINO A PMAX\0\0\0\0\0\0\0\0\0"),
        _ => no_word(),
    }
}

// The word w: nothing where there is no such word.
fn spell(w: u8) -> Spelling
    ensures { result ≡ spelling_of (word w) }
{
    match w {
        1..=12 => command_word(w - 1),
        13..=22 => mode_word(w - 13),
        23..=31 => setting_word(w - 23),
        _ => no_word(),
    }
}

// Which of the words from first to last s is.
pub fn read(first: u8, last: u8, s: &[u8]) -> Option<u8>
    ensures { result ≡ word_in first last s.now }
{
    let n = s.len();
    if 20 < n {
        return None;
    }
    let a = words::upto(s, 0);
    let b = words::upto(s, 8);
    let c = words::upto(s, 16);
    for w in first..=last {
        let m = spell(w);
        if (m.size == n) & (m.first == a) & (m.second == b) & (m.last == c) {
            return Some(w);
        }
    }
    None
}

// Which of V MAX and V MIN s is, with the space or without it.
pub fn read_volt(s: &[u8]) -> Option<u8>
    ensures { result ≡ volt_in s.now }
{
    if scan::same(b"VMAX", s) {
        return Some(names::V_MAX);
    }
    if scan::same(b"VMIN", s) {
        return Some(names::V_MIN);
    }
    read(names::V_MAX, names::V_MIN, s)
}

// Whether s is V MAX or V MIN without the space: it is read, and it is not what is written.
#[tactic(auto, unfolding(crate::specs::Words::is_joined))]
pub fn is_joined(s: &[u8]) -> bool
    ensures { result ≡ is_joined s.now }
{
    scan::same(b"VMAX", s) || scan::same(b"VMIN", s)
}

// The word w, put at a place.
pub fn put(out: &mut [u8], at: usize, w: u8) -> usize
    requires { at + 20 < limit }
    ensures { Puts out.old at (word w) result out.new }
{
    let m = spell(w);
    let mut text = [0u8; 24];
    words::put_word(&mut text, 0, m.first);
    words::put_word(&mut text, 8, m.second);
    words::put_word(&mut text, 16, m.last);
    put::put_text(out, at, scan::front(&text, m.size))
}
