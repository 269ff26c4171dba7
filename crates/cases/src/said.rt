// What several kinds of request print. `reply` is where the answers go.
use refusal::Refusal;
use std::io::{self, Write};

pub(crate) fn say_refusal<W: Write>(reply: &mut W, e: Refusal) -> io::Result<()> {
    write!(reply, "R {} {}", e.number(), e.detail())
}

// A call's number and detail.
pub(crate) fn say_code<W: Write>(reply: &mut W, number: u8, detail: usize) -> io::Result<()> {
    write!(reply, "{number}/{detail}")
}

// A request that is not of the form, or a call or a unit that is not.
pub(crate) fn say_unknown<W: Write>(reply: &mut W) -> io::Result<()> {
    reply.write_all(b"?")
}
