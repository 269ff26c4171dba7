// What a rule asks of a value: one question for each shape, with what is said where the value is of another.
#![tactic(auto)]

ghost use Rattle.value_ask.specs.Values.{is_filled, number_in, count_in, size_in, instant_in, amount_in, word_number, triples_in, list_size, none_below, not_negative};
ghost use Rattle.std.specs.Prelude.{◌≡◌};

use value::Value;
use value_list::Numbers;

pub fn is_filled(v: Value) -> bool
    ensures { result ≡ is_filled v }
{
    match v {
        Value::Blank => false,
        _ => true,
    }
}

// The number of an identifier.
pub fn number_in(v: Value) -> u64
    ensures { result ≡ number_in v }
{
    match v {
        Value::Id(n) => n,
        _ => 0,
    }
}

// The number of a sequence.
pub fn count_in(v: Value) -> u64
    ensures { result ≡ count_in v }
{
    match v {
        Value::Count(n) => n,
        _ => 0,
    }
}

// How many bytes of its room a text has.
pub fn size_in(v: Value) -> usize
    ensures { result ≡ size_in v }
{
    match v {
        Value::Unit(n) => n,
        Value::Reason(n) => n,
        Value::Note(n) => n,
        _ => 0,
    }
}

// A date's instant.
pub fn instant_in(v: Value) -> u64
    ensures { result ≡ instant_in v }
{
    match v {
        Value::When(d) => value_date::instant(d),
        _ => 0,
    }
}

// A number in thousandths.
pub fn amount_in(v: Value) -> i32
    ensures { result ≡ amount_in v }
{
    match v {
        Value::Amount(n) => n,
        _ => 0,
    }
}

// A word's number: no word has the number 0.
pub fn word_number(v: Value) -> u8
    ensures { result ≡ word_number v }
{
    match v {
        Value::Word(w) => w,
        _ => 0,
    }
}

// How many triples.
pub fn triples_in(v: Value) -> usize
    ensures { result ≡ triples_in v }
{
    match v {
        Value::Triples(n) => n,
        _ => 0,
    }
}

// How many numbers a list has.
pub fn list_size(v: Value) -> u8
    ensures { result ≡ list_size v }
{
    match v {
        Value::List(x) => x.count,
        _ => 0,
    }
}

fn none_below(x: Numbers) -> bool
    ensures { result ≡ none_below x }
{
    (0 <= x.first) & (0 <= x.second)
}

// Two numbers, neither negative.
pub fn not_negative(v: Value) -> bool
    ensures { result ≡ not_negative v }
{
    match v {
        Value::List(x) => none_below(x),
        _ => false,
    }
}
