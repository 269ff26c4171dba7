// What is told of a record in brief, and its six lines.
#![tactic(auto)]

ghost use Rattle.std.specs.Prelude.{◌+◌, ◌<◌, ◌++◌, ◌≡◌};
ghost use Rattle.report_brief.specs.Brief.{instant_text, told_of, brief_of, six_of};
ghost use Rattle.value_name.specs.Types.{code_of};
ghost use Rattle.text.specs.Bytes.{bytes};
ghost use Rattle.text.specs.Digits.{whole_text};
ghost use Rattle.text_keyline.specs.Keylines.{line_text};
ghost use Rattle.text.specs.Puts.{limit, Puts, wrote_of, buffer_of};

use layout::{Layout, fields};
use record::{Cell, Record, at};
use refusal::Refusal;
use text::{put, scan};
use value::Value;
use value_name::MessageType;

// The layout, the message's number, the unit's code in its room, and start and end as they stand in the record.
#[derive(Clone, Copy)]
pub struct Brief {
    pub layout: Layout,
    pub number: u64,
    pub size: usize,
    pub unit: [u8; 16],
    pub start: Value,
    pub end: Value,
}

// What is told of a message that was read, from the cells of its identifier, its unit, its start and its end, and its unit's code in its room.
pub fn of_reading(
    layout: Layout,
    identifier: Cell,
    named: Cell,
    unit: [u8; 16],
    start: Cell,
    end: Cell,
) -> Brief
    ensures { result ≡ told_of layout identifier.value named.value unit start.value end.value }
{
    let first = identifier.value;
    let second = named.value;
    let from = start.value;
    let to = end.value;
    Brief {
        layout,
        number: value_ask::number_in(first),
        size: value_ask::size_in(second),
        unit,
        start: from,
        end: to,
    }
}

// What is told of a record.
pub fn of_record(r: Record) -> Brief
    ensures { result ≡ brief_of r }
{
    let layout = r.layout;
    let cells = r.cells;
    let unit = r.unit;
    of_reading(
        layout,
        cells[at::IDENTIFIER],
        cells[at::UNIT],
        unit,
        cells[at::START],
        cells[fields::end_field(layout) - 1],
    )
}

// A date as its instant, a blank as nothing.
fn put_instant(out: &mut [u8], at: usize, v: Value) -> usize
    requires { at + 10 < limit }
    ensures { Puts out.old at (instant_text v) result out.new }
{
    if value_ask::is_filled(v) {
        return put::put_whole(out, at, 9, value_ask::instant_in(v));
    }
    at
}

// The first three lines: the result, the type and the number. What stands between two values is one text.
fn put_head(out: &mut [u8], at: usize, t: MessageType, n: u64) -> usize
    requires { at + 200 < limit }
    ensures { Puts out.old at (line_text (bytes "result=") (bytes "0") ++ line_text (bytes "type=") (code_of t) ++ line_text (bytes "number=") (whole_text 9 n)) result out.new }
{
    let code = value_name::code(t);
    let a = put::put_text(out, at, b"result=0\ntype=");
    let b = put::put_text(out, a, &code);
    let c = put::put_text(out, b, b"\nnumber=");
    let d = put::put_whole(out, c, 9, n);
    put::put_byte(out, d, b'\n')
}

// The six lines.
pub fn put_lines(out: &mut [u8], at: usize, b: Brief) -> usize
    requires { at + 200 < limit }
    ensures { Puts out.old at (six_of b) result out.new }
{
    let l = b.layout;
    let unit = b.unit;
    let start = b.start;
    let end = b.end;
    let head = put_head(out, at, layout::type_of(l), b.number);
    let third = text_keyline::put_line(out, head, b"unit=", scan::front(&unit, b.size));
    let fourth = put::put_text(out, third, b"start=");
    let fifth = put_instant(out, fourth, start);
    let sixth = put::put_text(out, fifth, b"\nend=");
    let last = put_instant(out, sixth, end);
    put::put_byte(out, last, b'\n')
}

// The six lines, written where out begins if there is room for them. They are put into a room of their own first: a refusal changes no byte.
pub fn write_lines(out: &mut [u8], b: Brief) -> Result<usize, Refusal>
    ensures { (result ≡ wrote_of out.old 0 (six_of b)) × (out.new ≡ buffer_of out.old 0 (six_of b)) }
{
    let mut lines = [0u8; 89];
    let size = put_lines(&mut lines, 0, b);
    if out.len() < size {
        return Err(Refusal::NoRoom(size));
    }
    Ok(put::put_text(out, 0, scan::front(&lines, size)))
}
