// The typed record of a message, by value: what each field holds, and the rooms in which texts and triples stand.
#![tactic(auto)]

pub mod at;

ghost use Rattle.std.specs.Prelude.{◌≤◌, ◌≡◌};
ghost use Rattle.record.specs.Records.{field_of, zero_record};

use layout::Layout;
use value::Value;
use value_list::Triple;

// What one field holds.
#[derive(Clone, Copy)]
pub struct Cell {
    pub value: Value,
}

// `cells[k - 1]` is the field k. A text's value is its length; its bytes stand in the room of its name. Unused room is zero.
#[derive(Clone, Copy)]
pub struct Record {
    pub layout: Layout,
    pub cells: [Cell; 26],
    pub unit: [u8; 16],
    pub reason: [u8; 128],
    pub note: [u8; 256],
    pub gradients: [Triple; 16],
}

pub const EMPTY: Cell = Cell {
    value: Value::Blank,
};

pub const NO_TRIPLE: Triple = Triple {
    low: 0,
    high: 0,
    gradient: 0,
};

// The record that a refusal hands back: all zero.
pub fn zero() -> Record
    ensures { result ≡ zero_record }
{
    Record {
        layout: Layout::Market,
        cells: [EMPTY; 26],
        unit: [0; 16],
        reason: [0; 128],
        note: [0; 256],
        gradients: [NO_TRIPLE; 16],
    }
}

// The value of the field k.
pub fn field(cells: [Cell; 26], k: usize) -> Value
    requires { (1 ≤ k) × (k ≤ 26) }
    ensures { result ≡ field_of cells k }
{
    let c = cells[k - 1];
    c.value
}
