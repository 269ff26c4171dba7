// A book over a restart: saved as a text of `key=value` lines, and read back.
#![tactic(auto)]

mod orders;
mod puts;

ghost use Rattle.book.specs.Answers.{outcome_by};
ghost use Rattle.std.specs.Prelude.{◌≤◌, length, take, drop, ◌≡◌, Ok};
ghost use Rattle.book_order.specs.Orders.{is_partial};
ghost use Rattle.saved.specs.Saved.{read_order, read_head, read_below, order_read_by, order_read_of, head_by, head_of, book_by, read_as, read_of};
ghost use Rattle.saved.specs.Saved.{saved_by, save_of, saved_in};
ghost use Rattle.text.specs.Bytes.{any};

use book::{Answered, Book};
use book_order::Order;
use refusal::Refusal;
use saved_lines::{Above, NOTHING, Table};
use text::scan;

// One order at the front of a text: the order, how many lines it has and where it ends.
#[derive(Clone, Copy)]
pub struct OrderRead {
    pub order: Order,
    pub lines: usize,
    pub end: usize,
}

// What stands above the orders: the unit's code in its room, the floor, how many orders there are, the number of their first line and its place.
#[derive(Clone, Copy)]
pub struct Head {
    pub size: usize,
    pub unit: [u8; 16],
    pub floor: u32,
    pub count: usize,
    pub line: usize,
    pub end: usize,
}

// The order at the front of a text, in a book with this floor, below orders with numbers under `least`; or, as an error, how many good lines stand above
// its first bad one.
pub fn read_order(s: &[u8], floor: u32, least: u64) -> Result<OrderRead, usize>
    ensures { order_read_by result ≡ order_read_of (read_order floor least 0 s.now) s.now }
{
    let item = saved_lines::read_item(
        Table::Order,
        Above {
            least,
            end: floor as u64 + 1,
        },
        s,
    )?;
    let v = item.values;
    Ok(OrderRead {
        order: orders::order_of(v),
        lines: item.lines,
        end: item.end,
    })
}

// The lines above the orders, or, as an error, the first bad one of them.
fn read_head(s: &[u8]) -> Result<Head, usize>
    ensures { head_by result ≡ head_of (read_head s.now) s.now }
{
    let form = match saved_lines::read_item(Table::Form, NOTHING, s) {
        Ok(form) => form,
        Err(lines) => {
            return Err(1 + lines);
        }
    };
    let start = form.end;
    let second = &s[start..];
    let Some(e) = text_keyline::unit_line(second) else {
        return Err(2);
    };
    let third = &second[e + 1..];
    let head = match saved_lines::read_item(Table::Head, NOTHING, third) {
        Ok(head) => head,
        Err(lines) => {
            return Err(3 + lines);
        }
    };
    let v = head.values;
    Ok(Head {
        size: e - 5,
        unit: text_room::keep(&second[5..e]),
        floor: v[0] as u32,
        count: v[1] as usize,
        line: 5,
        end: start + e + 1 + head.end,
    })
}

// The book of the orders below a head, or, as an error, the first bad line.
fn read_below(h: Head, s: &[u8]) -> Result<Book, usize>
    requires { (h.end ≤ length s.now) × (h.count ≤ 96) × (h.line ≤ 5) × (h.size ≤ 16) }
    ensures { book_by result ≡ read_as (read_below (head_by (Ok h)) (drop h.end s.now)) }
{
    let mut orders = [book_order::EMPTY; 96];
    let mut least = 0;
    let mut line = h.line;
    let end = h.end;
    let mut rest = &s[end..];
    let count = h.count;
    for i in 0..count {
        let next = match read_order(rest, h.floor, least) {
            Ok(next) => next,
            Err(lines) => {
                return Err(line + lines);
            }
        };
        line += next.lines;
        let o = next.order;
        orders[i] = o;
        least = o.number + 1;
        let size = next.end;
        let below = &rest[size..];
        rest = below;
    }
    if rest.len() != 0 {
        return Err(line);
    }
    let unit = h.unit;
    Ok(book::with(scan::front(&unit, h.size), h.floor, count, orders))
}

// The book of a saved text, or, as an error, the first bad line.
fn read_book(s: &[u8]) -> Result<Book, usize>
    ensures { book_by result ≡ read_of s.now }
{
    let h = read_head(s)?;
    read_below(h, s)
}

// The book of a saved text. 50: the first bad line, with the all-zero book.
pub fn read(s: &[u8]) -> Answered<()>
    ensures { outcome_by result ≡ read_of s.now }
{
    match read_book(s) {
        Ok(book) => Answered {
            answer: Ok(()),
            book,
        },
        Err(line) => Answered {
            answer: Err(Refusal::BadLine(line)),
            book: book::zero(),
        },
    }
}

// Whether one of the first `count` orders is struck in part.
fn any_partial(orders: [Order; 96], count: usize) -> bool
    requires { count ≤ 96 }
    ensures { result ≡ any is_partial (take count orders) }
{
    orders
        .iter()
        .take(count)
        .any(|o| book_order::is_partial(*o))
}

// The text of a book, written where out begins; answered is its length. 20: the book is malformed. 52: an order is struck in part. 11: there is no room,
// with the length needed. A refusal changes no byte.
pub fn save(b: Book, out: &mut [u8]) -> Result<usize, Refusal>
    ensures { (saved_by result ≡ save_of b (length out.old)) × (out.new ≡ saved_in b out.old) }
{
    let Some(count) = b.tally() else {
        return Err(Refusal::BadBook);
    };
    let orders = b.orders;
    if any_partial(orders, count) {
        return Err(Refusal::PartlyStruck);
    }
    let size = puts::put_book(&mut out[0..0], b, count);
    if out.len() < size {
        return Err(Refusal::NoRoom(size));
    }
    puts::put_book(out, b, count);
    Ok(size)
}
