// The book of commands of one unit, by value: each call takes the book and hands one back. Held orders fill the first places by ascending number; all
// other places are zero. A caller may have built the book from anything: a malformed one is refused.
#![tactic(auto)]

mod fitness;

ghost use Rattle.std.specs.Prelude.{◌≤◌, take, true, ◌≡◌};
ghost use Rattle.book.specs.Answers.{outcome_by, outcome_of, deed_outcome_of, fresh_of, in_force_by, found, asked_by, asked_of, shown_by, shown_of};
ghost use Rattle.book.specs.Places.{book_with, book_from, zero_book, with_orders, tally_of};
ghost use Rattle.book_ledger.specs.Calls.{Call, Deed};
ghost use Rattle.book_lists.specs.Keyed.{greatest, Ascending};
ghost use Rattle.book_order.specs.Orders.{number, live, is_brought, strike_for, could_strike};

use book_order::Order;
use book_stretch::Stretch;
use record::Record;
use refusal::Refusal;
use value_name::unit;

// The unit's code stands in the first `size` bytes of its room. `held` and `next` are what the panel shows: how many orders are held, and when the next
// of them ends, 0 where none is.
#[derive(Clone, Copy)]
pub struct Book {
    pub size: usize,
    pub unit: [u8; 16],
    pub floor: u32,
    pub held: usize,
    pub next: u32,
    pub orders: [Order; 96],
}

// What a call answers, and the book that it hands back: the same one where the call is refused.
#[derive(Clone, Copy)]
pub struct Answered<T> {
    pub answer: Result<T, Refusal>,
    pub book: Book,
}

// What the panel shows: how many orders are held and when the next of them ends.
#[derive(Clone, Copy)]
pub struct Panel {
    pub held: usize,
    pub next: u32,
}

fn hand_back<T>(answer: Result<T, Refusal>, book: Book) -> Answered<T>
    ensures { result ≡ record { answer = answer; book = book } }
{
    Answered { answer, book }
}

// Every book is made here.
fn make(
    size: usize,
    unit: [u8; 16],
    floor: u32,
    held: usize,
    next: u32,
    orders: [Order; 96],
) -> Book
    ensures { result ≡ book_with size unit floor held next orders }
{
    Book {
        size,
        unit,
        floor,
        held,
        next,
        orders,
    }
}

// The all-zero book, which every call refuses.
pub fn zero() -> Book
    ensures { result ≡ zero_book }
{
    make(0, [0; 16], 0, 0, 0, [book_order::EMPTY; 96])
}

// The book of a unit with a floor and so many orders in the first places.
pub fn with(unit: &[u8], floor: u32, count: usize, orders: [Order; 96]) -> Book
    ensures { result ≡ book_from unit.now floor count orders }
{
    make(
        unit.len(),
        text_room::keep(unit),
        floor,
        count,
        book_places::next_end(orders, count),
        orders,
    )
}

// A fresh book for a unit: 96 empty places and the floor 0. A bad code is refused 21, and gives the all-zero book, which every call refuses.
pub fn fresh(unit: &[u8]) -> Answered<()>
    ensures { outcome_by result ≡ fresh_of unit.now }
{
    if !unit::is_unit(unit) {
        return hand_back(Err(Refusal::NotTheBooksUnit), zero());
    }
    hand_back(Ok(()), with(unit, 0, 0, [book_order::EMPTY; 96]))
}

// Of the first `count` orders, which stand by ascending number, the number of the last one that is in force at t.
fn in_force_in(orders: [Order; 96], count: usize, t: u32) -> Option<u64>
    requires { (count ≤ 96) × Ascending number (take count orders) }
    ensures { in_force_by result ≡ found (greatest number (live t) (take count orders)) }
{
    let i = book_places::last_live(orders, 0, count, t)?;
    let o = orders[i];
    Some(o.number)
}

impl Book {
    // How many orders the book holds: they stand in its first places, and the others are empty.
    pub fn tally(self) -> Option<usize>
        ensures { result ≡ tally_of self }
    {
        let unit = self.unit;
        if !fitness::is_formed_unit(self.size, &unit) {
            return None;
        }
        let orders = self.orders;
        let count = book_places::count_held(orders, self.floor)?;
        if (self.held != count.held) | (self.next != count.next) {
            return None;
        }
        Some(count.held)
    }

    // The book with another floor and other orders, and the panel's two numbers of these.
    fn made(self, floor: u32, held: usize, next: u32, orders: [Order; 96]) -> Book
        ensures { result ≡ with_orders self floor held next orders }
    {
        let unit = self.unit;
        make(self.size, unit, floor, held, next, orders)
    }

    // Holds an order that some valid CB record brings, in a book that holds `count`.
    fn hold_in(self, count: usize, o: Order) -> Answered<()>
        requires { (tally_of self ≡ Some count) × (is_brought o ≡ true) }
        ensures { outcome_by result ≡ deed_outcome_of (Deed.hold o) self }
    {
        if o.end <= self.floor {
            return hand_back(Err(Refusal::EndsClosed), self);
        }
        let orders = self.orders;
        let Err(at) = book_places::seat_of(orders, 0, count, o.number) else {
            return hand_back(Err(Refusal::AlreadyHeld), self);
        };
        if count == 96 {
            return hand_back(Err(Refusal::NoPlace), self);
        }
        let next = book_places::sooner(self.next, o.end);
        hand_back(
            Ok(()),
            self.made(
                self.floor,
                count + 1,
                next,
                book_places::put_in(orders, at, count, o),
            ),
        )
    }

    // Strikes a stretch, such as some valid RC record says, of the order that has a number. The order keeps its place until it is closed, struck as a whole
    // too, so that a command sent again cannot revive it.
    fn strike_in(self, count: usize, n: u64, over: Stretch) -> Answered<()>
        requires { (tally_of self ≡ Some count) × (could_strike (strike_for n over) ≡ true) }
        ensures { outcome_by result ≡ deed_outcome_of (Deed.strike (strike_for n over)) self }
    {
        let mut orders = self.orders;
        let Ok(at) = book_places::seat_of(orders, 0, count, n) else {
            return hand_back(Err(Refusal::NotHeld), self);
        };
        let o = orders[at];
        let struck = match book_order::strike(o, over) {
            Ok(struck) => struck,
            Err(refusal) => return hand_back(Err(refusal), self),
        };
        orders[at] = struck;
        hand_back(Ok(()), self.made(self.floor, self.held, self.next, orders))
    }

    // Holds an order. 12: no valid CB record brings it.
    pub fn hold(self, o: Order) -> Answered<()>
        ensures { outcome_by result ≡ deed_outcome_of (Deed.hold o) self }
    {
        let Some(count) = self.tally() else {
            return hand_back(Err(Refusal::BadBook), self);
        };
        if !book_order::is_brought(o) {
            return hand_back(Err(Refusal::InvalidRecord), self);
        }
        self.hold_in(count, o)
    }

    // Strikes a stretch of the order that has a number. 12: no valid RC record says this.
    pub fn strike(self, n: u64, over: Stretch) -> Answered<()>
        ensures { outcome_by result ≡ deed_outcome_of (Deed.strike (strike_for n over)) self }
    {
        let Some(count) = self.tally() else {
            return hand_back(Err(Refusal::BadBook), self);
        };
        if !book_order::could_strike(n, over) {
            return hand_back(Err(Refusal::InvalidRecord), self);
        }
        self.strike_in(count, n, over)
    }

    // Holds the order of a CB record.
    pub fn command(self, r: Record) -> Answered<()>
        ensures { outcome_by result ≡ outcome_of (Call.command r) self }
    {
        let Some(count) = self.tally() else {
            return hand_back(Err(Refusal::BadBook), self);
        };
        let l = r.layout;
        let unit = self.unit;
        if let Err(refusal) = fitness::unfit(self.size, unit, r, layout::is_command(l)) {
            return hand_back(Err(refusal), self);
        }
        self.hold_in(count, book_order::of_record(r))
    }

    // Strikes the order that an RC record names, from the record's start to its end.
    pub fn revoke(self, r: Record) -> Answered<()>
        ensures { outcome_by result ≡ outcome_of (Call.revoke r) self }
    {
        let Some(count) = self.tally() else {
            return hand_back(Err(Refusal::BadBook), self);
        };
        let l = r.layout;
        let unit = self.unit;
        if let Err(refusal) = fitness::unfit(self.size, unit, r, layout::is_revocation(l)) {
            return hand_back(Err(refusal), self);
        }
        self.strike_in(count, book_order::named_by(r), book_order::struck_by(r))
    }

    // Closes the time up to t: the floor is t, and orders that end at t or before go.
    pub fn close(self, t: u32) -> Answered<()>
        ensures { outcome_by result ≡ outcome_of (Call.close t) self }
    {
        let Some(count) = self.tally() else {
            return hand_back(Err(Refusal::BadBook), self);
        };
        if t < self.floor {
            return hand_back(Err(Refusal::CloseBelowFloor), self);
        }
        let orders = self.orders;
        let kept = book_places::keep_past(orders, 0, count, count, t);
        let left = kept.orders;
        let next = book_places::next_end(left, kept.count);
        hand_back(Ok(()), self.made(t, kept.count, next, left))
    }

    // The number of the order in force at t.
    pub fn in_force(self, t: u32) -> Answered<Option<u64>>
        ensures { asked_by result ≡ asked_of t self }
    {
        let Some(count) = self.tally() else {
            return hand_back(Err(Refusal::BadBook), self);
        };
        if t < self.floor {
            return hand_back(Err(Refusal::AskedBelowFloor), self);
        }
        let orders = self.orders;
        hand_back(Ok(in_force_in(orders, count, t)), self)
    }

    // What the panel shows: the two numbers as they are stored, of a book that is not malformed.
    pub fn panel(self) -> Answered<Panel>
        ensures { shown_by result ≡ shown_of self }
    {
        let Some(_) = self.tally() else {
            return hand_back(Err(Refusal::BadBook), self);
        };
        hand_back(
            Ok(Panel {
                held: self.held,
                next: self.next,
            }),
            self,
        )
    }
}
