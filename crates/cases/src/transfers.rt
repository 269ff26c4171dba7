// `collect UNITS`: a fresh collector, and units of a transfer one after another.
use crate::hex::{self, say_hex};
use crate::request::items_of;
use crate::said::{say_code, say_unknown};
use refusal::Refusal;
use std::io::{self, Write};
use text::scan;
use transfer::{Collector, Whole};

fn say_heard<W: Write>(
    reply: &mut W,
    heard: Result<Option<Whole>, Refusal>,
    file: &[u8],
) -> io::Result<()> {
    match heard {
        Ok(None) => say_code(reply, 0, 0),
        Ok(Some(whole)) => {
            reply.write_all(b"F:")?;
            say_hex(reply, scan::front(file, whole.size))
        }
        Err(refusal) => say_code(reply, refusal.number(), 0),
    }
}

fn take<W: Write>(
    reply: &mut W,
    c: Collector,
    unit: &[u8],
    file: &mut [u8; 8192],
) -> io::Result<Collector> {
    let taken = c.take(unit, file);
    let heard = taken.heard;
    say_heard(reply, heard, file)?;
    Ok(taken.collector)
}

// One unit: one that is not of the form is not taken.
fn answer<W: Write>(
    reply: &mut W,
    c: Collector,
    unit: &mut [u8],
    file: &mut [u8; 8192],
) -> io::Result<Collector> {
    if let Some(unit) = hex::decode(unit) {
        return take(reply, c, unit, file);
    }
    say_unknown(reply)?;
    Ok(c)
}

pub(crate) fn answer_all<W: Write>(reply: &mut W, units: &mut [u8]) -> io::Result<()> {
    let Some(units) = items_of(units) else {
        return Ok(());
    };
    let mut file = [0; 8192];
    let mut c = transfer::fresh();
    for (i, unit) in units.split_mut(|b| *b == b',').enumerate() {
        if i != 0 {
            reply.write_all(b" ")?;
        }
        c = answer(reply, c, unit, &mut file)?;
    }
    Ok(())
}
