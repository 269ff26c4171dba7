// For make bench alone: the book's calls in a loop, since a book cannot cross to C.
#![tactic(auto)]

ghost use Rattle.std.specs.Prelude.{◌<◌};

use book::Book;
use book_order::Order;
use record::{Cell, Record, at};
use refusal::Refusal;
use std::num;
use text::scan;
use value::Value;

// The cell of a command's identifier.
fn id(n: u64) -> Cell {
    Cell {
        value: Value::Id(n),
    }
}

fn wrapped(n: u64) -> u32
    ensures { result < 65536 }
{
    (n % 65536) as u32
}

fn said_in_force(answer: Result<Option<u64>, Refusal>) -> u32 {
    match answer {
        Err(refusal) => refusal.number() as u32,
        Ok(None) => 0,
        Ok(Some(n)) => wrapped(n),
    }
}

// An order of the book that a call handed back counts too: else nobody would look at that book, and it need not be made.
fn said(answer: Result<(), Refusal>, o: Order) -> u32 {
    let number = match answer {
        Err(refusal) => refusal.number() as u32,
        Ok(()) => 0,
    };
    let c = o.struck[0];
    if c.to != 0 {
        return number + 1;
    }
    number + wrapped(o.number)
}

// The book for the command's unit, with the command under the numbers 2, 4, and so on.
fn filled(command: Record, held: u32) -> Book {
    let told = report_brief::of_record(command);
    let unit = told.unit;
    let fresh = book::fresh(scan::front(&unit, told.size));
    let mut b = fresh.book;
    let mut r = command;
    for i in 0..held {
        let c = id(2 * i as u64 + 2);
        r.cells[at::IDENTIFIER] = c;
        let o = b.command(r);
        b = o.book;
    }
    b
}

// Of the calls below each meets another floor, so that none is another's repetition, which a compiler might take out of the loop.

// What is in force at instants of the orders.
fn ask(held: Book, rounds: u32) -> u32 {
    let first = held.orders[0];
    let mut b = held;
    let mut sum: u32 = 0;
    for i in 0..rounds {
        b.floor = i % 1024;
        let asked = b.in_force(num::wrapping_add_u32(first.start, i % 1024));
        let answer = asked.answer;
        sum = num::wrapping_add_u32(sum, said_in_force(answer));
        b = asked.book;
    }
    sum
}

// Closes at the floor, which remove nothing.
fn close(held: Book, rounds: u32) -> u32 {
    let mut b = held;
    let mut sum: u32 = 0;
    for i in 0..rounds {
        b.floor = i % 1024;
        let o = b.close(i % 1024);
        b = o.book;
        sum = num::wrapping_add_u32(sum, said(o.answer, b.orders[(i % 96) as usize]));
    }
    sum
}

// Numbers that are held, or odd ones, which are not and stand in the middle of the book.
fn number(i: u32, is_held: bool) -> u64 {
    if is_held {
        (i % 96) as u64 * 2 + 2
    } else {
        (i % 16) as u64 * 2 + 81
    }
}

// Commands to a book that is the same each time.
fn give(held: Book, order: Record, rounds: u32, is_held: bool) -> u32 {
    let mut b = held;
    let mut r = order;
    let mut sum: u32 = 0;
    for i in 0..rounds {
        let c = id(number(i, is_held));
        r.cells[at::IDENTIFIER] = c;
        b.floor = i % 1024;
        let o = b.command(r);
        let next = o.book;
        sum = num::wrapping_add_u32(sum, said(o.answer, next.orders[(i % 96) as usize]));
    }
    sum
}

// Revocations of orders that are held, of a book that is the same each time.
fn revoke(held: Book, revocation: Record, rounds: u32) -> u32 {
    let mut b = held;
    let mut r = revocation;
    let mut sum: u32 = 0;
    for i in 0..rounds {
        let c = Cell {
            value: Value::Count((i % 96) as u64 * 2 + 2),
        };
        r.cells[at::SEQUENCE] = c;
        b.floor = i % 1024;
        let o = b.revoke(r);
        let next = o.book;
        sum = num::wrapping_add_u32(sum, said(o.answer, next.orders[(i % 96) as usize]));
    }
    sum
}

// Calls of one kind on a book with so many orders, read from a command's file at 7, 300 and a revocation's at 7, 301; the sum of what they answered.
// (A file that is refused counts as the zero record, and a book whose calls are all refused.)
#[unsafe(no_mangle)]
pub extern "C" fn halimpung_pace(
    call: u32,
    rounds: u32,
    held: u32,
    plan: &[u8],
    command: &[u8],
    revocation: &[u8],
) -> u32
    ensures { result < 65536 }
{
    let order = reader::read(7, 300, plan, command).unwrap_or(record::zero());
    let strike = reader::read(7, 301, plan, revocation).unwrap_or(record::zero());
    let b = filled(order, held);
    let sum = match call {
        0 => ask(b, rounds),
        1 => close(b, rounds),
        2 => give(b, order, rounds, false),
        3 => give(b, order, rounds, true),
        _ => revoke(b, strike, rounds),
    };
    sum % 65536
}
