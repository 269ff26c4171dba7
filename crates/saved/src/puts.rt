// A book's text, put where a buffer begins, as far as there is room.
ghost use Rattle.std.specs.Prelude.{◌+◌, ◌*◌, ◌≤◌, ◌<◌, length, take, true, ◌≡◌};
ghost use Rattle.book.specs.Places.{tally_of, shelf};
ghost use Rattle.book_order.specs.Orders.{could_come};
ghost use Rattle.saved.specs.Saved.{order_text, head_text, text_of};
ghost use Rattle.text.specs.Puts.{limit, Puts};

use crate::orders;
use book::Book;
use book_order::Order;
use saved_lines::{NOTHING, Table};
use text::scan;

// How many lines an order has.
const LINES: usize = 7;

fn put_order(out: &mut [u8], at: usize, o: Order) -> usize
    requires { (at + 400 < limit) × (could_come o ≡ true) }
    ensures { Puts out.old at (order_text o) result out.new }
{
    saved_lines::put_item(out, at, Table::Order, NOTHING, orders::values_of(o), LINES)
}

// The lines above the orders.
fn put_head(out: &mut [u8], size: usize, unit: [u8; 16], floor: u32, count: usize) -> usize
    requires { count ≤ 96 }
    ensures { Puts out.old 0 (head_text (take size unit) floor count) result out.new }
{
    let mut form = [0u64; 18];
    form[0] = 1;
    let a = saved_lines::put_item(out, 0, Table::Form, NOTHING, form, 1);
    let b = text_keyline::put_line(out, a, b"unit=", scan::front(&unit, size));
    let mut head = [0u64; 18];
    head[0] = floor as u64;
    head[1] = count as u64;
    saved_lines::put_item(out, b, Table::Head, NOTHING, head, 2)
}

// The text of a book that holds `count` orders.
pub fn put_book(out: &mut [u8], b: Book, count: usize) -> usize
    requires { tally_of b ≡ Some count }
    ensures { Puts out.old 0 (text_of (shelf b)) result out.new }
{
    let unit = b.unit;
    let mut p = put_head(out, b.size, unit, b.floor, count);
    for i in 0..count {
        p = put_order(out, p, b.orders[i]);
    }
    p
}
