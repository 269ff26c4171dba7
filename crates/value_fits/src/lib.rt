// Whether a value is one that its kind may hold. A caller may have built it from anything.
#![tactic(auto)]

mod numbers;
mod shapes;
mod texts;
pub mod triples;

ghost use Rattle.value_fits.specs.Fits.{fits, holds};
ghost use Rattle.value.specs.Texts.{rooms_in};
ghost use Rattle.std.specs.Prelude.{◌≡◌};

use value::{Kind, Rooms, Shape, Value};
use value_name::MessageType;

// Whether a value that is not blank fits a shape.
fn fits(t: MessageType, s: Shape, v: Value, rooms: Rooms<'_>) -> bool
    ensures { result ≡ fits t (rooms_in rooms.entry) s v }
{
    match v {
        Value::Blank => false,
        Value::Id(x) => s == Shape::IsId(t) && x < 10000000000,
        Value::Unit(x) => s == Shape::IsUnit && texts::is_unit(rooms.unit, x),
        Value::When(d) => s == Shape::IsWhen && value_date::is_real(d),
        Value::Amount(x) => s == Shape::IsAmount && value_bounds::is_amount(x),
        Value::Count(x) => s == Shape::IsCount && x < 10000000000,
        Value::Reason(x) => s == Shape::IsReason && texts::is_kept(rooms.reason, 128, x),
        Value::Note(x) => s == Shape::IsNote && texts::is_kept(rooms.note, 256, x),
        Value::Word(x) => shapes::is_among(s, x),
        Value::List(x) => numbers::are_listed(x, shapes::fewest(s), shapes::most(s)),
        Value::Triples(x) => s == Shape::IsTriples && triples::are_listed(rooms.gradients, x),
        Value::Voltage(x) => s == Shape::IsVoltage && value_bounds::is_amount(x.0),
        Value::Regulator(x) => s == Shape::IsRegulator && value_bounds::is_amount(x.0),
        Value::Change(x) => s == Shape::IsChange && value_bounds::is_amount(x.0),
        Value::Reactive(x) => s == Shape::IsReactive && value_bounds::is_amount(x.0),
    }
}

// Whether a kind may hold a value: a blank where it lets one stand, or else what fits its shape.
pub fn holds(t: MessageType, k: Kind, v: Value, rooms: Rooms<'_>) -> bool
    ensures { result ≡ holds t (rooms_in rooms.entry) k v }
{
    if !value_ask::is_filled(v) {
        return k.blank;
    }
    let s = k.shape;
    fits(t, s, v, rooms)
}
