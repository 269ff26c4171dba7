// A value read from its trimmed text, by kind.
ghost use Rattle.value_date.specs.Date.{date_of};
ghost use Rattle.value_list.specs.Forms.{gradients_in};
ghost use Rattle.value_name.specs.Names.{identifier_of, sequence_of};
ghost use Rattle.value_number.specs.Number.{number_of};
ghost use Rattle.value.specs.Kinds.{id_from, count_from, date_from, amount_from, got_word, list_from, triples_from, setting_from, voltage, regulator, change};
ghost use Rattle.value.specs.Kinds.{reactive, shape_of, value_of};
ghost use Rattle.value_word.specs.Names.{w_q_zero, w_max_sottoeccitazione};
ghost use Rattle.value_word.specs.Words.{word_in, volt_in};
ghost use Rattle.std.specs.Prelude.{leb, length, cond, ◌≡◌};

use crate::{ChangePercent, Kind, Kv, MVar, RatPercent, Shape, Value};
use value_list::{Numbers, few, triples};
use value_name::{MessageType, identifier, sequence, unit};
use value_word::names;

fn read_id(t: MessageType, s: &[u8]) -> Option<Value>
    ensures { result ≡ id_from (identifier_of t s.now) }
{
    identifier::read(t, s).map(Value::Id)
}

fn read_count(s: &[u8]) -> Option<Value>
    ensures { result ≡ count_from (sequence_of s.now) }
{
    sequence::read(s).map(Value::Count)
}

fn read_date(s: &[u8]) -> Option<Value>
    ensures { result ≡ date_from (date_of s.now) }
{
    value_date::read(s).map(Value::When)
}

fn read_amount(s: &[u8]) -> Option<Value>
    ensures { result ≡ amount_from (number_of s.now) }
{
    value_number::read(s).map(Value::Amount)
}

fn worded(w: Option<u8>) -> Option<Value>
    ensures { result ≡ got_word w }
{
    w.map(Value::Word)
}

fn read_word(first: u8, last: u8, s: &[u8]) -> Option<Value>
    ensures { result ≡ got_word (word_in first last s.now) }
{
    worded(value_word::read(first, last, s))
}

fn listed(l: Option<Numbers>) -> Option<Value>
    ensures { result ≡ list_from l }
{
    l.map(Value::List)
}

fn read_triples(s: &[u8]) -> Option<Value>
    ensures { result ≡ triples_from (gradients_in s.now) }
{
    let list = triples::read(s)?;
    Some(Value::Triples(list.count))
}

// `Impostazione Sart/Report`: kV, `V MAX` or `V MIN`, the space left out or not.
fn read_voltage(s: &[u8]) -> Option<Value>
    ensures { result ≡ setting_from voltage (number_of s.now) (got_word (volt_in s.now)) }
{
    match value_number::read(s) {
        Some(n) => Some(Value::Voltage(Kv(n))),
        None => worded(value_word::read_volt(s)),
    }
}

// `Impostazione RAT`: per cent of the RAT, `V MAX` or `V MIN`, the space left out or not.
fn read_regulator(s: &[u8]) -> Option<Value>
    ensures { result ≡ setting_from regulator (number_of s.now) (got_word (volt_in s.now)) }
{
    match value_number::read(s) {
        Some(n) => Some(Value::Regulator(RatPercent(n))),
        None => worded(value_word::read_volt(s)),
    }
}

// `Variazione`: a change in per cent.
fn read_change(s: &[u8]) -> Option<Value>
    ensures { result ≡ setting_from change (number_of s.now) None }
{
    let n = value_number::read(s)?;
    Some(Value::Change(ChangePercent(n)))
}

// `Potenza reattiva`: MVar, `Q=0`, or one of the two extremes.
fn read_reactive(s: &[u8]) -> Option<Value>
    ensures { result ≡ setting_from reactive (number_of s.now) (got_word (word_in w_q_zero w_max_sottoeccitazione s.now)) }
{
    match value_number::read(s) {
        Some(n) => Some(Value::Reactive(MVar(n))),
        None => read_word(names::Q_ZERO, names::MAX_SOTTOECCITAZIONE, s),
    }
}

fn read_unit(s: &[u8]) -> Option<Value>
    ensures { result ≡ shape_of Shape.IsUnit s.now }
{
    if unit::is_unit(s) {
        Some(Value::Unit(s.len()))
    } else {
        None
    }
}

// How many bytes a text has, if they are few enough for its room.
fn size_within(s: &[u8], most: usize) -> Option<usize>
    ensures { result ≡ cond (leb (length s.now) most) (Some (length s.now)) None }
{
    if s.len() <= most { Some(s.len()) } else { None }
}

#[tactic(auto, unfolding(crate::specs::Kinds::shape_of))]
fn read_reason(s: &[u8]) -> Option<Value>
    ensures { result ≡ shape_of Shape.IsReason s.now }
{
    size_within(s, 128).map(Value::Reason)
}

#[tactic(auto, unfolding(crate::specs::Kinds::shape_of))]
fn read_note(s: &[u8]) -> Option<Value>
    ensures { result ≡ shape_of Shape.IsNote s.now }
{
    size_within(s, 256).map(Value::Note)
}

fn read_shape(shape: Shape, s: &[u8]) -> Option<Value>
    ensures { result ≡ shape_of shape s.now }
{
    match shape {
        Shape::IsId(t) => read_id(t, s),
        Shape::IsUnit => read_unit(s),
        Shape::IsWhen => read_date(s),
        Shape::IsAmount => read_amount(s),
        Shape::IsCount => read_count(s),
        Shape::IsReason => read_reason(s),
        Shape::IsNote => read_note(s),
        Shape::IsWord(first, last) => read_word(first, last, s),
        Shape::IsProfile => listed(few::read_profile(s)),
        Shape::IsBands => listed(few::read_bands(s)),
        Shape::IsTriples => read_triples(s),
        Shape::IsVoltage => read_voltage(s),
        Shape::IsRegulator => read_regulator(s),
        Shape::IsChange => read_change(s),
        Shape::IsReactive => read_reactive(s),
    }
}

// A trimmed text read as a value of a kind.
pub fn read(k: Kind, s: &[u8]) -> Option<Value>
    ensures { result ≡ value_of k s.now }
{
    if k.blank & (s.len() == 0) {
        return Some(Value::Blank);
    }
    let shape = k.shape;
    read_shape(shape, s)
}
