// Every kind of value that a message can hold, and how it is read from its trimmed text. (The crate value_put puts it as text.)
#![tactic(auto)]

pub mod read;

use value_date::Date;
use value_list::{Numbers, Triple};
use value_name::MessageType;

// The four quantities of VQ, each in thousandths. None may be put for another.
#[derive(Clone, Copy, PartialEq, Eq)]
pub struct Kv(pub i32);

#[derive(Clone, Copy, PartialEq, Eq)]
pub struct RatPercent(pub i32);

#[derive(Clone, Copy, PartialEq, Eq)]
pub struct ChangePercent(pub i32);

#[derive(Clone, Copy, PartialEq, Eq)]
pub struct MVar(pub i32);

// What one field holds. The bytes of a text and the triples stand in their rooms beside the values; here is how many there are.
#[derive(Clone, Copy, PartialEq, Eq)]
pub enum Value {
    Blank,
    Id(u64),
    Unit(usize),
    When(Date),
    Amount(i32),
    Count(u64),
    Reason(usize),
    Note(usize),
    Word(u8),
    List(Numbers),
    Triples(usize),
    Voltage(Kv),
    Regulator(RatPercent),
    Change(ChangePercent),
    Reactive(MVar),
}

// The rooms in which texts and triples stand, as they are lent: a record's, or parts of a file. A value says how much of its room is used. (It goes by
// value: behind a reference to it the type would not tell that the triples are sixteen, and who builds one would have to prove it.)
#[derive(Clone, Copy)]
pub struct Rooms<'a> {
    pub unit: &'a [u8],
    pub reason: &'a [u8],
    pub note: &'a [u8],
    pub gradients: [Triple; 16],
}

// What a field may hold. A word is one of those numbered from the first to the last.
#[derive(Clone, Copy, PartialEq, Eq)]
pub enum Shape {
    IsId(MessageType),
    IsUnit,
    IsWhen,
    IsAmount,
    IsCount,
    IsReason,
    IsNote,
    IsWord(u8, u8),
    IsProfile,
    IsBands,
    IsTriples,
    IsVoltage,
    IsRegulator,
    IsChange,
    IsReactive,
}

#[derive(Clone, Copy, PartialEq, Eq)]
pub struct Kind {
    pub shape: Shape,
    pub blank: bool,
}
