// Stretches of time that are struck out of an order: each from an instant up to, not with, another. An order has room for four.
#![tactic(auto)]

mod joining;

ghost use Rattle.book_stretch.specs.Stretches.{covers, lies, is_none, are_none, formed_in, fits_in, joined_in};
ghost use Rattle.text.specs.Bytes.{any, all};
ghost use Rattle.std.specs.Prelude.{◌≡◌};

#[derive(Clone, Copy, PartialEq, Eq, Debug)]
pub struct Stretch {
    pub from: u32,
    pub to: u32,
}

// No stretch.
pub const NONE: Stretch = Stretch { from: 0, to: 0 };

// Stretches that were joined: how many they are, and the first four.
#[derive(Clone, Copy)]
pub struct Joined {
    pub count: usize,
    pub list: [Stretch; 4],
}

fn covers(c: Stretch, t: u32) -> bool
    ensures { result ≡ covers t c }
{
    (c.from <= t) & (t < c.to)
}

// Whether t is struck.
pub fn any_covers(list: [Stretch; 4], t: u32) -> bool
    ensures { result ≡ any (covers t) list }
{
    list.iter().any(|c| covers(*c, t))
}

// Whether s lies in c.
pub fn lies(s: Stretch, c: Stretch) -> bool
    ensures { result ≡ lies s c }
{
    (c.from <= s.from) & (s.to <= c.to)
}

// Whether s is struck already: one of them has it.
pub fn any_holds(list: [Stretch; 4], s: Stretch) -> bool
    ensures { result ≡ any (lies s) list }
{
    list.iter().any(|c| lies(s, *c))
}

fn all_none(list: &[Stretch]) -> bool
    ensures { result ≡ all is_none list.now }
{
    list.iter().all(|c| *c == NONE)
}

fn is_none(c: Stretch) -> bool
    ensures { result ≡ is_none c }
{
    (c.from == 0) & (c.to == 0)
}

// Whether nothing is struck. Each order of a book is asked this at each call: its tests are joined with no branch among them, since as a chain with
// `==` a call of the book took up to a fifth longer.
pub fn are_none(list: [Stretch; 4]) -> bool
    ensures { result ≡ are_none list }
{
    is_none(list[0]) & is_none(list[1]) & is_none(list[2]) & is_none(list[3])
}

// A stretch that may stand from `least` on, up to `most`.
fn fits(c: Stretch, least: u64, most: u32) -> bool
    ensures { result ≡ fits_in least most c }
{
    (least <= c.from as u64) & (c.from < c.to) & (c.to <= most)
}

// Whether they are well formed in an order's own time. Of most orders nothing is struck, which is told first. Each stretch is copied out and tested by
// value: tested by a reference, as `==` does, all are read one by one even where nothing is struck, and a full book's call runs a quarter more instructions.
pub fn are_formed(list: [Stretch; 4], time: Stretch) -> bool
    ensures { result ≡ formed_in time list }
{
    if are_none(list) {
        return true;
    }
    let mut least = time.from as u64;
    for i in 0..4 {
        let c = list[i];
        if is_none(c) {
            return all_none(&list[i..]);
        }
        if !fits(c, least, time.to) {
            return false;
        }
        least = c.to as u64 + 1;
    }
    true
}

// One stretch more, joined with those that it meets or touches.
pub fn join(list: [Stretch; 4], s: Stretch) -> Joined
    ensures { result ≡ joined_in s list }
{
    let mut all = joining::start(s);
    for c in list {
        all = joining::turn(all, c);
    }
    let whole = joining::finish(all);
    let room = whole.room;
    Joined {
        count: whole.count,
        list: [room[0], room[1], room[2], room[3]],
    }
}
