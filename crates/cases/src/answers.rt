// One request answered.
ghost use Rattle.std.specs.Prelude.{◌≤◌};

use crate::hex::say_hex;
use crate::request::{Entry, Request, Source, cut, field_count, parse};
use crate::said::{say_refusal, say_unknown};
use crate::{calls, lookups, transfers};
use layout::Layout;
use record::Record;
use refusal::Refusal;
use report_brief::Brief;
use std::io::{self, Write};
use text::scan;
use value::Value;

// A type's two letters and a layout's one.
fn letters_of(l: Layout) -> &'static str {
    match l {
        Layout::Market => "CB M",
        Layout::Mfrr => "CB F",
        Layout::Revocation => "RC -",
        Layout::Generic => "MG -",
        Layout::Exclusion => "EB -",
        Layout::Limitation => "LB -",
        Layout::Secondary => "SR -",
        Layout::VoltVar => "VQ -",
        Layout::Rejection => "RI -",
        Layout::Reserve => "QR -",
    }
}

// Where a value is no date, `-`.
fn say_instant<W: Write>(reply: &mut W, v: Value) -> io::Result<()> {
    if let Value::When(d) = v {
        return write!(reply, "{}", value_date::instant(d));
    }
    reply.write_all(b"-")
}

fn say_brief<W: Write>(reply: &mut W, b: Brief) -> io::Result<()> {
    write!(reply, "{} {} ", letters_of(b.layout), b.number)?;
    reply.write_all(scan::front(&b.unit, b.size))?;
    reply.write_all(b" ")?;
    say_instant(reply, b.start)?;
    reply.write_all(b" ")?;
    say_instant(reply, b.end)
}

// What was written at the front of a buffer, or the refusal.
fn say_front<W: Write>(reply: &mut W, w: Result<usize, Refusal>, out: &[u8]) -> io::Result<()> {
    match w {
        Ok(n) => say_hex(reply, scan::front(out, n)),
        Err(e) => say_refusal(reply, e),
    }
}

// The written form of a record: none has more than 8,192 bytes.
fn say_written<W: Write>(reply: &mut W, r: Record) -> io::Result<()> {
    let mut out = [0u8; 8192];
    let w = writer::write(r, &mut out);
    say_front(reply, w, &out)
}

fn say_record<W: Write>(reply: &mut W, r: Record) -> io::Result<()> {
    say_brief(reply, report_brief::of_record(r))?;
    reply.write_all(b" ")?;
    say_written(reply, r)
}

fn say_answer<W: Write>(reply: &mut W, answer: Result<Record, Refusal>) -> io::Result<()> {
    match answer {
        Ok(record) => {
            reply.write_all(b"OK ")?;
            say_record(reply, record)
        }
        Err(e) => say_refusal(reply, e),
    }
}

// The normaliser's answer, and what it wrote.
fn say_normal<W: Write>(reply: &mut W, w: Result<usize, Refusal>, out: &[u8]) -> io::Result<()> {
    if let Ok(n) = w {
        write!(reply, "OK {n} ")?;
    }
    say_front(reply, w, out)
}

// The largest buffer of a request.
pub(crate) const LARGEST: usize = 65536;

// An entry on a buffer of so many bytes, each of which is AA hex before: of the normaliser what it wrote, of the gateway's two the answer and the whole buffer.
// (Apart, so that only what takes such a buffer pays for it.)
#[inline(never)]
fn enter_in<W: Write>(reply: &mut W, entry: Entry, s: Source, size: usize) -> io::Result<()>
    requires { size ≤ 65536 }
{
    let mut space = [170; LARGEST];
    let out = &mut space[..size];
    let n = match entry {
        Entry::Norm => {
            let w = writer::normalise(s.ca, s.ioa, s.plan, s.file, out);
            return say_normal(reply, w, out);
        }
        Entry::Cread => gateway::halimpung_read(s.ca, s.ioa, s.plan, s.file, out),
        Entry::Cnorm => gateway::halimpung_normalise(s.ca, s.ioa, s.plan, s.file, out),
    };
    write!(reply, "N {n} ")?;
    say_hex(reply, out)
}

fn enter<W: Write>(reply: &mut W, entry: Entry, s: Source, room: u32) -> io::Result<()> {
    let size = room as usize;
    if LARGEST < size {
        return say_unknown(reply);
    }
    enter_in(reply, entry, s, size)
}

// What the program prints.
fn say_printed<W: Write>(reply: &mut W, plan: &[u8], input: &[u8]) -> io::Result<()> {
    let mut out = [0u8; 128];
    let n = report::print(&mut out, plan, input);
    reply.write_all(b"OUT ")?;
    say_hex(reply, scan::front(&out, n))
}

fn answer_request<W: Write>(reply: &mut W, r: Request) -> io::Result<()> {
    match r {
        Request::Read(s) => say_answer(reply, reader::read(s.ca, s.ioa, s.plan, s.file)),
        Request::Enter(entry, s, room) => enter(reply, entry, s, room),
        Request::Time(which, s, sheet) => lookups::answer(reply, which, s, sheet),
        Request::Program { plan, input } => say_printed(reply, plan, input),
    }
}

// Answers the request on a line, which is without its end. (A key may be as long as a line: its bytes are looked at once.)
pub(crate) fn answer<W: Write>(reply: &mut W, line: &mut [u8]) -> io::Result<()> {
    let (key, rest) = line.split_at_mut(scan::first(line, b' ').min(line.len()));
    let count = field_count(rest);
    let (_, fields) = cut(rest, b' ');
    match (&*key, count) {
        (b"book", 3) => calls::answer_all(reply, fields),
        (b"collect", 2) => transfers::answer_all(reply, fields),
        _ => match parse(key, count, fields) {
            Some(r) => answer_request(reply, r),
            None => say_unknown(reply),
        },
    }
}
