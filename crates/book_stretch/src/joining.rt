// How a stretch is joined with four others, which come one after another: those before it, those that it meets, and those after it.
ghost use Rattle.std.specs.Prelude.{◌≤◌, ◌<◌, ◌≡◌};
ghost use Rattle.book_stretch.specs.Steps.{starting, added, placed, turned, finished, used};
ghost use Rattle.book_stretch.specs.Stretches.{hull};

use crate::{NONE, Stretch};

// The stretch as far as it has grown, whether it stands in the room by now, and what stands there. Four and one more are five.
#[derive(Clone, Copy)]
pub struct Joining {
    pub next: Stretch,
    pub settled: bool,
    pub count: usize,
    pub room: [Stretch; 5],
}

pub fn start(s: Stretch) -> Joining
    ensures { result ≡ starting s }
{
    Joining {
        next: s,
        settled: false,
        count: 0,
        room: [NONE; 5],
    }
}

// Two that meet or touch are one.
fn hull(s: Stretch, c: Stretch) -> Stretch
    ensures { result ≡ hull s c }
{
    let mut h = s;
    if c.from < h.from {
        h.from = c.from;
    }
    if h.to < c.to {
        h.to = c.to;
    }
    h
}

fn add(j: Joining, c: Stretch) -> Joining
    requires { j.count < 5 }
    ensures { result ≡ added c j }
{
    let n = j.count;
    let mut room = j.room;
    room[n] = c;
    let next = j.next;
    Joining {
        next,
        settled: j.settled,
        count: n + 1,
        room,
    }
}

// The stretch itself, where it stands among the others.
fn place(j: Joining) -> Joining
    requires { j.count < 5 }
    ensures { result ≡ placed j }
{
    let next = j.next;
    let mut k = add(j, next);
    k.settled = true;
    k
}

// The next of the four: nothing, one before the stretch or after it, or one with which it grows.
pub fn turn(j: Joining, c: Stretch) -> Joining
    requires { used j ≤ 4 }
    ensures { result ≡ turned c j }
{
    if c.to == 0 {
        return j;
    }
    let s = j.next;
    if j.settled | (c.to < s.from) {
        return add(j, c);
    }
    if s.to < c.from {
        return add(place(j), c);
    }
    let mut k = j;
    k.next = hull(s, c);
    k
}

// All of them, once the four have come.
pub fn finish(j: Joining) -> Joining
    requires { used j ≤ 5 }
    ensures { result ≡ finished j }
{
    if j.settled {
        return j;
    }
    place(j)
}
