// The kinds by the names that a line begins with.
use value::{Kind, Shape};
use value_name::MessageType;
use value_word::names;

// None where there is no kind of that name.
pub(crate) fn kind_named(key: &[u8]) -> Option<Kind> {
    let (shape, blank) = match key {
        b"identifier" => (Shape::IsId(MessageType::Cb), false),
        b"unit" => (Shape::IsUnit, false),
        b"date" => (Shape::IsWhen, false),
        b"number" => (Shape::IsAmount, false),
        b"sequence" => (Shape::IsCount, false),
        b"profile" => (Shape::IsProfile, true),
        b"bands" => (Shape::IsBands, true),
        b"gradients" => (Shape::IsTriples, false),
        b"reason" => (Shape::IsReason, true),
        b"note" => (Shape::IsNote, true),
        b"kv" => (Shape::IsVoltage, true),
        b"rat" => (Shape::IsRegulator, true),
        b"change" => (Shape::IsChange, true),
        b"mvar" => (Shape::IsReactive, true),
        b"operation" => (Shape::IsWord(names::SOSPENSIONE, names::PROGRAMMA), false),
        _ => return None,
    };
    Some(Kind { shape, blank })
}
