// The 96 places of a book, as an array by value: which of them hold orders, where a number stands among those from one place up to another, and the
// places with an order put in or let go. What holds of places whatever stands there is in book_shelf.
#![tactic(auto)]

ghost use Rattle.std.specs.Prelude.{◌≤◌, ◌<◌, take, ◌≡◌};
ghost use Rattle.book_lists.specs.Keyed.{sooner};
ghost use Rattle.book_order.specs.Orders.{live, next_end, is_empty};
ghost use Rattle.book_places.specs.Places.{fits_after, leading, count_in, seat_by, seat_in, kept_of, place_of};
ghost use Rattle.book_shelf.specs.Shelf.{between, put_in, last_at};
ghost use Rattle.text.specs.Bytes.{all};

use book_order::Order;

// How many orders the places hold, and when the next of them ends.
#[derive(Clone, Copy)]
pub struct Count {
    pub held: usize,
    pub next: u32,
}

// The places that are left filled, and how many.
#[derive(Clone, Copy)]
pub struct Kept {
    pub orders: [Order; 96],
    pub count: usize,
}

// Whether an order may stand after numbers below `least`, in a book with this floor.
fn fits_after(floor: u32, least: u64, o: Order) -> bool
    ensures { result ≡ fits_after floor least o }
{
    (least <= o.number) & (floor < o.end) & book_order::could_hold(o)
}

// The earlier of two ends, of which 0 stands for none.
pub fn sooner(a: u32, b: u32) -> u32
    ensures { result ≡ sooner a b }
{
    if a == 0 {
        return b;
    }
    if (b != 0) & (b < a) {
        return b;
    }
    a
}

// How many of the first places hold orders, by ascending number, that fit a book with this floor, and when the next of them ends.
fn count_leading(orders: &[Order; 96], floor: u32) -> (usize, u32)
    ensures { (result.0 ≤ 96) × (result.0 ≡ leading floor 0 orders.now) × (result.1 ≡ next_end (take result.0 orders.now)) }
{
    let mut least: u64 = 0;
    let mut next = 0;
    for (i, o) in orders.iter().enumerate() {
        if !fits_after(floor, least, *o) {
            return (i, next);
        }
        least = o.number + 1;
        next = sooner(next, o.end);
    }
    (96, next)
}

fn are_empty(orders: &[Order]) -> bool
    ensures { result ≡ all is_empty orders.now }
{
    orders.iter().all(|o| book_order::is_empty(*o))
}

// How many of the places hold orders, by ascending number, that fit a book with this floor, if those after them are empty, and when the next of them ends.
pub fn count_held(orders: [Order; 96], floor: u32) -> Option<Count>
    ensures { result ≡ count_in floor orders }
{
    let (count, next) = count_leading(&orders, floor);
    if !are_empty(&orders[count..]) {
        return None;
    }
    Some(Count { held: count, next })
}

// When the next of the first `count` orders ends.
pub fn next_end(orders: [Order; 96], count: usize) -> u32
    ensures { result ≡ next_end (take count orders) }
{
    orders
        .iter()
        .take(count)
        .fold(0, |next, o| sooner(next, o.end))
}

// Where a number stands among the orders from `from` up to `to`, or, as an error, where it would stand.
pub fn seat_of(orders: [Order; 96], from: usize, to: usize, n: u64) -> Result<usize, usize>
    requires { (from ≤ to) × (to ≤ 96) }
    ensures { seat_by result ≡ seat_in n from to orders }
{
    for i in from..to {
        let o = orders[i];
        if n <= o.number {
            return if o.number == n { Ok(i) } else { Err(i) };
        }
    }
    Err(to)
}

// The places with one order more: those from `at` up to `count`, the first empty place, move up by one.
pub fn put_in(orders: [Order; 96], at: usize, count: usize, o: Order) -> [Order; 96]
    requires { (at ≤ count) × (count < 96) }
    ensures { result ≡ put_in at count o orders }
{
    let mut next = orders;
    next.copy_within(at..count, at + 1);
    next[at] = o;
    next
}

// Of the first `count` orders those that do not stand from `from` up to `to`, or end past t, in the first places.
pub fn keep_past(orders: [Order; 96], from: usize, to: usize, count: usize, t: u32) -> Kept
    requires { count ≤ 96 }
    ensures { result ≡ kept_of from to count t orders }
{
    let mut next = [book_order::EMPTY; 96];
    let mut kept = 0;
    for i in 0..count {
        let o = orders[i];
        if (i < from) | (to <= i) | (t < o.end) {
            next[kept] = o;
            kept += 1;
        }
    }
    Kept {
        orders: next,
        count: kept,
    }
}

// Of the orders from `from` up to `to` the last one that is in force at t.
pub fn last_live(orders: [Order; 96], from: usize, to: usize, t: u32) -> Option<usize>
    requires { (from ≤ to) × (to ≤ 96) }
    ensures { result ≡ place_of (last_at (live t) from (between from to orders)) }
{
    for i in (from..to).rev() {
        if book_order::is_live(orders[i], t) {
            return Some(i);
        }
    }
    None
}
