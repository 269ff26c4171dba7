// An order as the values of its lines, and back.
ghost use Rattle.std.specs.Prelude.{◌≤◌, true, ◌≡◌};
ghost use Rattle.book_order.specs.Orders.{could_come};
ghost use Rattle.saved.specs.Orders.{kind_in, layout_from, raised, lowered, struck_in, struck_from, values_of, order_from, Instants};
ghost use Rattle.text.specs.Puts.{room_of};
ghost use Rattle.value_bounds.specs.Bounds.{is_amount};

use book_order::Order;
use book_stretch::Stretch;
use layout::Layout;
use saved_lines::ZERO_AMOUNT;

fn kind_of(l: Layout) -> u64
    ensures { result ≡ kind_in l }
{
    match l {
        Layout::Mfrr => 1,
        _ => 0,
    }
}

fn layout_of(kind: u64) -> Layout
    ensures { result ≡ layout_from kind }
{
    if kind == 0 {
        return Layout::Market;
    }
    Layout::Mfrr
}

// An amount's number: how far it is above -1,000,000,000.
fn raised(x: i32) -> u64
    requires { is_amount x ≡ true }
    ensures { result ≡ raised x }
{
    if x < 0 {
        return ZERO_AMOUNT - value_number::magnitude(x);
    }
    ZERO_AMOUNT + value_number::magnitude(x)
}

fn lowered(v: u64) -> i32
    requires { (1 ≤ v) × (v ≤ 1999999999) }
    ensures { result ≡ lowered v }
{
    if v < ZERO_AMOUNT {
        return value_number::negative(ZERO_AMOUNT - v);
    }
    value_number::positive(v - ZERO_AMOUNT)
}

fn struck_in(struck: bool) -> u64
    ensures { result ≡ struck_in struck }
{
    if struck {
        return 1;
    }
    0
}

// The values of an order that some valid CB record gives, in their room.
pub fn values_of(o: Order) -> [u64; 18]
    requires { could_come o ≡ true }
    ensures { result ≡ room_of 18 (values_of o) }
{
    let l = o.layout;
    let mut v = [0u64; 18];
    v[0] = o.number;
    v[1] = kind_of(l);
    v[2] = o.start as u64;
    v[3] = o.end as u64;
    v[4] = raised(o.first);
    v[5] = raised(o.second);
    v[6] = struck_in(book_order::is_whole(o));
    v
}

// What is struck of an order: all of it, or nothing.
fn struck_from(k: u64, start: u32, end: u32) -> [Stretch; 4]
    ensures { result ≡ struck_from k start end }
{
    let mut struck = [book_stretch::NONE; 4];
    if k == 1 {
        struck[0] = Stretch {
            from: start,
            to: end,
        };
    }
    struck
}

// The order that these are the values of.
pub fn order_of(v: [u64; 18]) -> Order
    requires { Instants v }
    ensures { result ≡ order_from v }
{
    Order {
        number: v[0],
        start: v[2] as u32,
        end: v[3] as u32,
        first: lowered(v[4]),
        second: lowered(v[5]),
        layout: layout_of(v[1]),
        struck: struck_from(v[6], v[2] as u32, v[3] as u32),
    }
}
