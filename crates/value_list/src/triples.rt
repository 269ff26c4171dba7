// Gradients: one to sixteen triples `Pmin,Pmax,Grad` between ';'.
ghost use Rattle.std.specs.Prelude.{◌+◌, ◌<◌, replicate, true, false, ◌≡◌};
ghost use Rattle.value_list.specs.Forms.{one_in, gradients_in, kept_triples, counted_triples, triple_text, gradients_text};
ghost use Rattle.text.specs.Bytes.{trim};
ghost use Rattle.text.specs.Puts.{limit, Puts};

use crate::{Gradients, Numbers, Triple, few};
use text::{put, scan};

fn read_triple(s: &[u8]) -> Option<Triple>
    ensures { result ≡ one_in s.now }
{
    let x = few::read(s, b',', 3, 3)?;
    Some(Triple {
        low: x.first,
        high: x.second,
        gradient: x.third,
    })
}

fn part_triple(s: &[u8]) -> Option<Triple>
    ensures { result ≡ one_in (trim s.now) }
{
    read_triple(scan::trim(s))
}

const NO_TRIPLE: Triple = Triple {
    low: 0,
    high: 0,
    gradient: 0,
};

pub fn read(s: &[u8]) -> Option<Gradients>
    ensures { result ≡ gradients_in s.now }
{
    let mut values = [NO_TRIPLE; 16];
    let mut at = 0;
    for n in 0..16 {
        let e = crate::part_end(s, at, b';');
        values[n] = part_triple(&s[at..e])?;
        if e == s.len() {
            return Some(Gradients {
                count: n + 1,
                values,
            });
        }
        at = e + 1;
    }
    None
}

// The triples as a record keeps them: none where none were read.
pub fn kept(read: Option<Gradients>) -> [Triple; 16]
    ensures { result ≡ kept_triples read }
{
    match read {
        Some(list) => list.values,
        None => [NO_TRIPLE; 16],
    }
}

// And how many they are.
pub fn counted(read: Option<Gradients>) -> Option<usize>
    ensures { result ≡ counted_triples read }
{
    read.map(|list| list.count)
}

fn put_triple(out: &mut [u8], at: usize, t: Triple) -> usize
    requires { at + 100 < limit }
    ensures { Puts out.old at (triple_text t) result out.new }
{
    let three = Numbers {
        count: 3,
        first: t.low,
        second: t.high,
        third: t.gradient,
        fourth: 0,
    };
    few::put(out, at, three, b',')
}

// The first n triples, of which there are no more than there is room for, put at a place.
pub fn put(out: &mut [u8], at: usize, values: [Triple; 16], n: usize) -> usize
    requires { at + 2000 < limit }
    ensures { Puts out.old at (gradients_text values n) result out.new }
{
    let held = n.min(16);
    if held == 0 {
        return at;
    }
    let mut p = put_triple(out, at, values[0]);
    for i in 1..held {
        let q = put::put_byte(out, p, b';');
        p = put_triple(out, q, values[i]);
    }
    p
}
