// Texts of `key=value` lines that are read and put item by item: the form of a saved book, its head, an order. A table says, for the values of the lines
// above, which line comes next: its key, the sort of its value and its bounds. One loop reads any item, and one puts it.
#![tactic(auto)]

mod keys;
mod line;
mod tables;

ghost use Rattle.std.specs.Prelude.{◌+◌, ◌≤◌, ◌<◌, take, [], ◌≡◌};
ghost use Rattle.saved_lines.specs.Items.{item_by, item_of, text_from, read_from};
ghost use Rattle.saved_lines.specs.Tables.{next_of};
ghost use Rattle.saved_lines.specs.Values.{Small};
ghost use Rattle.text.specs.Puts.{limit, Puts};

#[derive(Clone, Copy)]
pub enum Key {
    Form,
    Floor,
    Count,
    Number,
    Kind,
    Start,
    End,
    Var1,
    Var2,
    Struck,
}

// What a line's value is: a whole number, an amount in thousandths, or the letter of a kind.
#[derive(Clone, Copy)]
pub enum Sort {
    Whole,
    Amount,
    Letter,
}

// A line that comes next, with the least and the greatest number that its value may be.
#[derive(Clone, Copy)]
pub struct NextLine {
    pub key: Key,
    pub sort: Sort,
    pub least: u64,
    pub most: u64,
}

// A line as it is met: its value as one number and where its LF stands; that it is wrong; or that none is wanted any more.
#[derive(Clone, Copy)]
pub enum Met {
    Says(u64, usize),
    Wrong,
    Over,
}

// Which items there are.
#[derive(Clone, Copy)]
pub enum Table {
    Form,
    Head,
    Order,
}

// What the items above leave to an order: the least number, and the least end.
#[derive(Clone, Copy)]
pub struct Above {
    pub least: u64,
    pub end: u64,
}

// What an item's lines say: how many they are, their values and where the item ends.
#[derive(Clone, Copy)]
pub struct Item {
    pub lines: usize,
    pub values: [u64; 18],
    pub end: usize,
}

// What is left to an order that stands below nothing.
pub const NOTHING: Above = Above { least: 0, end: 0 };

// The number of the amount 0: amounts are told by how far they are above -1,000,000,000.
pub const ZERO_AMOUNT: u64 = 1000000000;

const MOST_AMOUNT: u64 = value_bounds::MOST_AMOUNT as u64;

// The item at the front of a text, or, as an error, how many good lines stand above the first bad one.
pub fn read_item(t: Table, a: Above, s: &[u8]) -> Result<Item, usize>
    ensures { item_by result ≡ item_of (read_from (next_of t a) 18 [] s.now) s.now }
{
    let mut v = [0u64; 18];
    let mut rest = s;
    for n in 0..18 {
        let x = tables::next_of(t, a, v, n);
        match line::meet(x, rest) {
            Met::Wrong => {
                return Err(n);
            }
            Met::Over => {
                return Ok(Item {
                    lines: n,
                    values: v,
                    end: s.len() - rest.len(),
                });
            }
            Met::Says(value, e) => {
                v[n] = value;
                let below = &rest[e + 1..];
                rest = below;
            }
        }
    }
    Err(18)
}

// The text of an item of so many lines with these values, put at a place.
pub fn put_item(out: &mut [u8], at: usize, t: Table, a: Above, v: [u64; 18], count: usize) -> usize
    requires { (at + 400 < limit) × (count ≤ 18) × Small v }
    ensures { Puts out.old at (text_from (next_of t a) [] (take count v)) result out.new }
{
    let mut p = at;
    for n in 0..count {
        p = line::put_next(out, p, tables::next_of(t, a, v, n), v[n]);
    }
    p
}
