// Texts in, values out. Each line of standard input is a kind and a text; what the text is read as is printed in its written form,
// a date with its instant, or `refused`. The compiled functions are tried on stdin and compared with stdout by the gate.
#![tactic(auto)]

mod kinds;

use std::io::{self, BufWriter, Read, Write};
use text::scan;
use value::{Kind, Value, read};
use value_list::triples;
use value_name::MessageType;

// How many bytes of the input are read at most.
const MOST: u64 = 65536;

// The value as it is written. Whatever room its kind has, s is what is kept there.
fn show_text<W: Write>(reply: &mut W, v: Value, s: &[u8]) -> io::Result<()> {
    let mut out = [0u8; 1024];
    let unit = text_room::keep(s);
    let reason = text_room::keep(s);
    let note = text_room::keep(s);
    let gradients = triples::kept(triples::read(s));
    match value_put::write_value(
        &mut out,
        0,
        MessageType::Cb,
        v,
        &unit,
        &reason,
        &note,
        gradients,
    ) {
        Ok(n) => reply.write_all(scan::front(&out, n)),
        Err(_) => reply.write_all(b"no room"),
    }
}

fn show_instant<W: Write>(reply: &mut W, v: Value) -> io::Result<()> {
    if let Value::When(d) = v {
        write!(reply, " is {}", value_date::instant(d))?;
    }
    Ok(())
}

fn show_value<W: Write>(reply: &mut W, k: Kind, s: &[u8]) -> io::Result<()> {
    let Some(v) = read::read(k, s) else {
        return reply.write_all(b"refused");
    };
    show_text(reply, v, s)?;
    show_instant(reply, v)
}

fn show_line<W: Write>(reply: &mut W, line: &[u8]) -> io::Result<()> {
    let p = scan::first(line, b' ');
    let key = scan::front(line, p);
    let text = scan::trim(scan::rest(line, p));
    reply.write_all(line)?;
    reply.write_all(b": ")?;
    match kinds::kind_named(key) {
        Some(k) => show_value(reply, k, text)?,
        None => reply.write_all(b"no such kind")?,
    }
    reply.write_all(b"\n")
}

fn main(rt: HostRuntime) -> io::Result<()> {
    let mut input = Vec::new(rt.alloc());
    rt.stdin().take(MOST).read_to_end(&mut input)?;
    let mut reply = BufWriter::new(rt.alloc(), rt.stdout())?;
    for line in input.split_inclusive(|b| *b == b'\n') {
        show_line(&mut reply, line.strip_suffix(b"\n").unwrap_or(line))?;
    }
    reply.flush()
}
