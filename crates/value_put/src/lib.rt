// Values put as text into a lent buffer, with room or refused.
#![tactic(auto)]

ghost use Rattle.std.specs.Prelude.{◌+◌, ◌<◌, ◌≡◌};
ghost use Rattle.value_put.specs.Rooms.{Narrow};
ghost use Rattle.text.specs.Puts.{limit, wrote_of, buffer_of, Puts};
ghost use Rattle.value.specs.Texts.{lent_rooms, rooms_in, value_text, is_written};

use refusal::Refusal;
use text::{put, scan};
use value::{Rooms, Value};
use value_date;
use value_list::{Triple, few, triples};
use value_name::{MessageType, identifier};
use value_number;
use value_word;

// The text of a value, put at a place; the bytes of texts and the triples come from their rooms, which are a record's or parts of a file.
pub fn put_value(out: &mut [u8], at: usize, t: MessageType, v: Value, rooms: Rooms<'_>) -> usize
    requires { (at + 2000 < limit) × Narrow (rooms_in rooms) }
    ensures { Puts out.old at (value_text t (rooms_in rooms.entry) v) result out.new }
{
    match v {
        Value::Blank => at,
        Value::Id(n) => identifier::put(out, at, t, n),
        Value::Unit(n) => put::put_text(out, at, scan::front(rooms.unit, n)),
        Value::When(d) => value_date::put(out, at, d),
        Value::Amount(x) => value_number::put(out, at, x),
        Value::Count(n) => put::put_whole(out, at, 9, n),
        Value::Reason(n) => put::put_text(out, at, scan::front(rooms.reason, n)),
        Value::Note(n) => put::put_text(out, at, scan::front(rooms.note, n)),
        Value::Word(w) => value_word::put(out, at, w),
        Value::List(x) => few::put(out, at, x, b';'),
        Value::Triples(n) => triples::put(out, at, rooms.gradients, n),
        Value::Voltage(x) => value_number::put(out, at, x.0),
        Value::Regulator(x) => value_number::put(out, at, x.0),
        Value::Change(x) => value_number::put(out, at, x.0),
        Value::Reactive(x) => value_number::put(out, at, x.0),
    }
}

// The text of a value, put at a place, or refused where there is no room for it: then no byte is changed.
pub fn write_value(
    out: &mut [u8],
    at: usize,
    t: MessageType,
    v: Value,
    unit: &[u8; 16],
    reason: &[u8; 128],
    note: &[u8; 256],
    gradients: [Triple; 16],
) -> Result<usize, Refusal>
    ensures { (result ≡ wrote_of out.old at (value_text t (lent_rooms unit reason note gradients) v))
        × (out.new ≡ buffer_of out.old at (value_text t (lent_rooms unit reason note gradients) v)) }
{
    let rooms = Rooms {
        unit,
        reason,
        note,
        gradients,
    };
    let size = put_value(&mut out[0..0], 0, t, v, rooms);
    if out.len() < at {
        return Err(Refusal::NoRoom(size));
    }
    if out.len() - at < size {
        return Err(Refusal::NoRoom(size));
    }
    put_value(&mut out[at..], 0, t, v, rooms);
    Ok(at + size)
}

// Whether the text that a value was read from is the value's own text, so that it may be copied: what is no number stands as it is written, but for
// V MAX and V MIN without their space.
pub fn is_written(v: Value, text: &[u8]) -> bool
    ensures { result ≡ is_written v text.now }
{
    match v {
        Value::Amount(_) => value_number::are_short(text),
        Value::Word(_) => !value_word::is_joined(text),
        Value::List(_) => value_number::are_short(text),
        Value::Triples(_) => value_number::are_short(text),
        Value::Voltage(_) => value_number::are_short(text),
        Value::Regulator(_) => value_number::are_short(text),
        Value::Change(_) => value_number::are_short(text),
        Value::Reactive(_) => value_number::are_short(text),
        _ => true,
    }
}
