// `time a PLAN CA IOA FILE SHEET` and `time r ..`: where the start-up or the ramp time stands.
use crate::request::Source;
use crate::said::say_refusal;
use refusal::Refusal;
use std::io::{self, Write};
use text::scan;
use times::Time;
use times_sheet::{Part, Which};

// The part that the time's own call hands back.
fn part<'a>(w: Which, s: Source<'a>, sheet: &'a [u8]) -> &'a [u8] {
    match w {
        Which::StartUp => times::start_up(s.ca, s.ioa, s.plan, s.file, sheet),
        Which::Ramp => times::ramp(s.ca, s.ioa, s.plan, s.file, sheet),
    }
}

// A place, and whether the call's part is the bytes there.
fn say_place<W: Write>(reply: &mut W, text: &[u8], place: Part, part: &[u8]) -> io::Result<()> {
    write!(reply, "{} {}", place.from, place.to)?;
    if scan::rest(scan::front(text, place.to), place.from) != part {
        write!(reply, " and another part")?;
    }
    Ok(())
}

// The refusal, and whether the companion call and the empty part say so too.
fn say_none<W: Write>(
    reply: &mut W,
    e: Refusal,
    s: Source,
    sheet: &[u8],
    part: &[u8],
) -> io::Result<()> {
    say_refusal(reply, e)?;
    if times::refusal_of(s.ca, s.ioa, s.plan, s.file, sheet) != Some(e) || !part.is_empty() {
        write!(reply, " and another refusal")?;
    }
    Ok(())
}

pub(crate) fn answer<W: Write>(reply: &mut W, w: Which, s: Source, sheet: &[u8]) -> io::Result<()> {
    let p = part(w, s, sheet);
    match times::locate(w, s.ca, s.ioa, s.plan, s.file, sheet) {
        Ok(Time::InFile(place)) => {
            write!(reply, "P file ")?;
            say_place(reply, s.file, place, p)
        }
        Ok(Time::InSheet(place)) => {
            write!(reply, "P sheet ")?;
            say_place(reply, sheet, place, p)
        }
        Err(e) => say_none(reply, e, s, sheet, p),
    }
}
