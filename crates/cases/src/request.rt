// A request line: its fields, which single blanks part, and the requests that ask one thing. (The calls on a book and the units of a transfer are taken
// one by one: calls.rt, transfers.rt.) Bytes are decoded where they stand, so a line is lent to be written.
use crate::hex;
use text::{digits, scan};
use times_sheet::Which;

// What stands before the first b, and what stands after it.
pub(crate) fn cut(text: &mut [u8], b: u8) -> (&mut [u8], &mut [u8]) {
    let size = scan::first(text, b).min(text.len());
    let (front, rest) = text.split_at_mut(size);
    match rest.split_first_mut() {
        Some((_, back)) => (front, back),
        None => (front, &mut []),
    }
}

// The most fields that a request has, its key among them.
const MOST_FIELDS: usize = 7;

// How many fields a line has, or what stands of it from the blank after its key on: one more than a request can have says that there are more, and nothing
// after these is looked at.
pub(crate) fn field_count(line: &[u8]) -> usize {
    let mut rest = line;
    for count in 1..=MOST_FIELDS {
        let Some((_, after)) = scan::rest(rest, scan::first(rest, b' ')).split_first() else {
            return count;
        };
        rest = after;
    }
    MOST_FIELDS + 1
}

// A decimal number of 32 bits, in at most ten digits.
pub(crate) fn number_of(field: &[u8]) -> Option<u32> {
    let Some(n) = digits::read_digits(field, 10) else {
        return None;
    };
    u32::try_from(n).ok()
}

// The items of a list, which commas join: None where there is none. A comma may also end it.
pub(crate) fn items_of(list: &mut [u8]) -> Option<&mut [u8]> {
    if matches!(list, [] | [b'-']) {
        return None;
    }
    let size = list.len();
    if list.ends_with(b",") {
        return Some(&mut list[..size - 1]);
    }
    Some(list)
}

// A file at an address of a plan.
#[derive(Clone, Copy)]
pub(crate) struct Source<'a> {
    pub(crate) ca: u32,
    pub(crate) ioa: u32,
    pub(crate) plan: &'a [u8],
    pub(crate) file: &'a [u8],
}

// `PLAN CA IOA FILE`, and the fields after it.
fn source_in(fields: &mut [u8]) -> Option<(Source<'_>, &mut [u8])> {
    let (plan, fields) = cut(fields, b' ');
    let (ca, fields) = cut(fields, b' ');
    let (ioa, fields) = cut(fields, b' ');
    let (file, fields) = cut(fields, b' ');
    let source = Source {
        ca: number_of(ca)?,
        ioa: number_of(ioa)?,
        plan: hex::decode(plan)?,
        file: hex::decode(file)?,
    };
    Some((source, fields))
}

// The entries that are lent a buffer: the normaliser, and the gateway's two on it.
#[derive(Clone, Copy)]
pub(crate) enum Entry {
    Norm,
    Cread,
    Cnorm,
}

// A file's reading, an entry with a buffer of so many bytes, one of a file's two times by a sheet, or what the program prints.
#[derive(Clone, Copy)]
pub(crate) enum Request<'a> {
    Read(Source<'a>),
    Enter(Entry, Source<'a>, u32),
    Time(Which, Source<'a>, &'a [u8]),
    Program { plan: &'a [u8], input: &'a [u8] },
}

// `read PLAN CA IOA FILE`
fn read_in(fields: &mut [u8]) -> Option<Request<'_>> {
    let (source, _) = source_in(fields)?;
    Some(Request::Read(source))
}

// `norm PLAN CA IOA FILE ROOM`, `cread ..` and `cnorm ..`
fn entry_in(entry: Entry, fields: &mut [u8]) -> Option<Request<'_>> {
    let (source, room) = source_in(fields)?;
    Some(Request::Enter(entry, source, number_of(room)?))
}

// `time a PLAN CA IOA FILE SHEET` and `time r ..`
fn time_in(fields: &mut [u8]) -> Option<Request<'_>> {
    let (letter, fields) = cut(fields, b' ');
    let which = match &*letter {
        b"a" => Which::StartUp,
        b"r" => Which::Ramp,
        _ => return None,
    };
    let (source, sheet) = source_in(fields)?;
    Some(Request::Time(which, source, hex::decode(sheet)?))
}

// `prog PLAN STDIN`; the plan `!` is one that cannot be read, and so an empty one.
fn program_in(fields: &mut [u8]) -> Option<Request<'_>> {
    let (plan, input) = cut(fields, b' ');
    let plan = if matches!(plan, [b'!']) {
        &[]
    } else {
        hex::decode(plan)?
    };
    Some(Request::Program {
        plan,
        input: hex::decode(input)?,
    })
}

// The request by the key of its line, the count of the line's fields, and the fields after the key: None where it is not of the form.
pub(crate) fn parse<'a>(key: &[u8], count: usize, fields: &'a mut [u8]) -> Option<Request<'a>> {
    match (key, count) {
        (b"read", 5) => read_in(fields),
        (b"norm", 6) => entry_in(Entry::Norm, fields),
        (b"cread", 6) => entry_in(Entry::Cread, fields),
        (b"cnorm", 6) => entry_in(Entry::Cnorm, fields),
        (b"time", 7) => time_in(fields),
        (b"prog", 3) => program_in(fields),
        _ => None,
    }
}
