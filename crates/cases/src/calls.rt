// `book UNIT CALLS`: a fresh book for a unit, and calls on it one after another.
use crate::answers::LARGEST;
use crate::hex::{self, say_hex};
use crate::request::{cut, items_of, number_of};
use crate::said::{say_code, say_unknown};
use book::{Answered, Book, Panel};
use record::Record;
use refusal::Refusal;
use std::io::{self, Cursor, Write};
use text::scan;

// An order by its type, its unit and its file.
#[derive(Clone, Copy)]
struct Order<'a> {
    kind: &'a [u8],
    unit: &'a [u8],
    file: &'a [u8],
}

// What an order is given to.
#[derive(Clone, Copy)]
enum Act {
    Command,
    Revoke,
}

// `C:TYPE:UNIT:FILE` and `V:..`, `X:t`, `Q:t`, `S:ROOM`, `L:TEXT` and `P`.
#[derive(Clone, Copy)]
enum Call<'a> {
    Give(Act, Order<'a>),
    Close(u32),
    Ask(u32),
    Save(u32),
    Load(&'a [u8]),
    Panel,
}

// `TYPE:UNIT:FILE`
fn order_in(text: &mut [u8]) -> Option<Order<'_>> {
    let (kind, rest) = cut(text, b':');
    let (unit, file) = cut(rest, b':');
    Some(Order {
        kind,
        unit,
        file: hex::decode(file)?,
    })
}

fn call_in(text: &mut [u8]) -> Option<Call<'_>> {
    let (letter, body) = cut(text, b':');
    match &*letter {
        b"C" => Some(Call::Give(Act::Command, order_in(body)?)),
        b"V" => Some(Call::Give(Act::Revoke, order_in(body)?)),
        b"X" => Some(Call::Close(number_of(body)?)),
        b"Q" => Some(Call::Ask(number_of(body)?)),
        b"S" => Some(Call::Save(number_of(body)?)),
        b"L" => Some(Call::Load(hex::decode(body)?)),
        b"P" => Some(Call::Panel),
        _ => None,
    }
}

// A refusal's number and detail.
fn say_why<W: Write>(reply: &mut W, refusal: Refusal) -> io::Result<()> {
    say_code(reply, refusal.number(), refusal.detail())
}

fn say_done<W: Write>(reply: &mut W, a: Result<(), Refusal>) -> io::Result<()> {
    match a {
        Ok(()) => say_code(reply, 0, 0),
        Err(refusal) => say_why(reply, refusal),
    }
}

// What a call answered. (A book is some 6 KB: it stays in one place, where each call puts the one that it handed back.)
fn take_back<W: Write>(reply: &mut W, b: &mut Book, o: Answered<()>) -> io::Result<()> {
    let answer = o.answer;
    *b = o.book;
    say_done(reply, answer)
}

fn close<W: Write>(reply: &mut W, b: &mut Book, t: u32) -> io::Result<()> {
    let closed = b.close(t);
    take_back(reply, b, closed)
}

fn say_in_force<W: Write>(reply: &mut W, a: Result<Option<u64>, Refusal>) -> io::Result<()> {
    match a {
        Ok(None) => reply.write_all(b"f:none"),
        Ok(Some(n)) => write!(reply, "f:{n}"),
        Err(refusal) => say_why(reply, refusal),
    }
}

fn ask<W: Write>(reply: &mut W, b: &mut Book, t: u32) -> io::Result<()> {
    let asked = b.in_force(t);
    let answer = asked.answer;
    *b = asked.book;
    say_in_force(reply, answer)
}

fn say_panel<W: Write>(reply: &mut W, p: Result<Panel, Refusal>) -> io::Result<()> {
    match p {
        Ok(shows) => write!(reply, "p:{}:{}", shows.held, shows.next),
        Err(refusal) => say_why(reply, refusal),
    }
}

fn show<W: Write>(reply: &mut W, b: &mut Book) -> io::Result<()> {
    let shown = b.panel();
    let answer = shown.answer;
    *b = shown.book;
    say_panel(reply, answer)
}

// Reads an order's file by a plan of the one row ca=1, ioa=1, its unit and its type. (Of a unit and a type that are too long, as much as shows that.)
fn read_order(o: Order) -> io::Result<Result<Record, Refusal>> {
    let mut plan = Cursor::new([0u8; 64]);
    plan.write_all(b"ca=1\nioa=1\nunit=")?;
    plan.write_all(scan::front(o.unit, 17))?;
    plan.write_all(b"\ntype=")?;
    plan.write_all(scan::front(o.kind, 3))?;
    plan.write_all(b"\n")?;
    let size = plan.position() as usize;
    Ok(reader::read(1, 1, scan::front(plan.get_ref(), size), o.file))
}

// The record of the file; None where it is refused.
fn record_of(o: Order) -> io::Result<Option<Record>> {
    let read = read_order(o)?;
    Ok(read.ok())
}

fn give<W: Write>(reply: &mut W, b: &mut Book, act: Act, o: Order) -> io::Result<()> {
    let Some(r) = record_of(o)? else {
        return reply.write_all(b"unread");
    };
    let outcome = match act {
        Act::Command => b.command(r),
        Act::Revoke => b.revoke(r),
    };
    take_back(reply, b, outcome)
}

fn say_saved<W: Write>(reply: &mut W, s: Result<usize, Refusal>, out: &[u8]) -> io::Result<()> {
    match s {
        Ok(n) => {
            reply.write_all(b"t:")?;
            say_hex(reply, scan::front(out, n))
        }
        Err(refusal) => say_why(reply, refusal),
    }
}

// Into a buffer of so many bytes.
fn save<W: Write>(reply: &mut W, b: &Book, room: u32) -> io::Result<()> {
    let size = room as usize;
    if LARGEST < size {
        return say_unknown(reply);
    }
    let mut space = [0; LARGEST];
    let out = &mut space[..size];
    let s = saved::save(*b, out);
    say_saved(reply, s, out)
}

// The book read, or the all-zero book, is the book from then on.
fn load<W: Write>(reply: &mut W, b: &mut Book, text: &[u8]) -> io::Result<()> {
    take_back(reply, b, saved::read(text))
}

// One call.
fn answer<W: Write>(reply: &mut W, b: &mut Book, call: &mut [u8]) -> io::Result<()> {
    match call_in(call) {
        Some(Call::Give(act, o)) => give(reply, b, act, o),
        Some(Call::Close(t)) => close(reply, b, t),
        Some(Call::Ask(t)) => ask(reply, b, t),
        Some(Call::Save(room)) => save(reply, b, room),
        Some(Call::Load(text)) => load(reply, b, text),
        Some(Call::Panel) => show(reply, b),
        None => say_unknown(reply),
    }
}

fn answer_calls<W: Write>(reply: &mut W, b: &mut Book, calls: &mut [u8]) -> io::Result<()> {
    let Some(calls) = items_of(calls) else {
        return Ok(());
    };
    for call in calls.split_mut(|b| *b == b',') {
        reply.write_all(b" ")?;
        answer(reply, b, call)?;
    }
    Ok(())
}

// The fields after the key.
pub(crate) fn answer_all<W: Write>(reply: &mut W, fields: &mut [u8]) -> io::Result<()> {
    let (unit, calls) = cut(fields, b' ');
    let Some(unit) = hex::decode(unit) else {
        return say_unknown(reply);
    };
    let fresh = book::fresh(unit);
    let answer = fresh.answer;
    let mut b = fresh.book;
    say_done(reply, answer)?;
    answer_calls(reply, &mut b, calls)
}
