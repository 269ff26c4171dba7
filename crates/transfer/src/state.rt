// A collector as 16 bytes, for a host in C that keeps it between two units. All zero is a fresh collector, and any 16 bytes are some collector.
ghost use Rattle.std.specs.Prelude.{◌+◌, ◌*◌, ◌/◌, ◌%◌, ◌≡◌};
ghost use Rattle.transfer.specs.States.{turn_in, turn_no, collector_in, state_of};

use crate::{Collector, Turn};

fn turn_in(b: u8) -> Turn
    ensures { result ≡ turn_in b }
{
    match b {
        1 => Turn::Between,
        2 => Turn::Within,
        _ => Turn::Fresh,
    }
}

fn turn_no(t: Turn) -> u8
    ensures { result ≡ turn_no t }
{
    match t {
        Turn::Fresh => 0,
        Turn::Between => 1,
        Turn::Within => 2,
    }
}

// Numbers of two and three bytes, low one first.
fn two(low: u8, high: u8) -> u32
    ensures { result ≡ low + 256 * high }
{
    u16::from_le_bytes([low, high]) as u32
}

fn three(low: u8, middle: u8, high: u8) -> u32
    ensures { result ≡ low + 256 * middle + 65536 * high }
{
    u32::from_le_bytes([low, middle, high, 0])
}

// The collector in a state.
pub fn collector_in(s: &[u8; 16]) -> Collector
    ensures { result ≡ collector_in s.now }
{
    Collector {
        turn: turn_in(s[0]),
        ca: two(s[2], s[3]),
        ioa: three(s[4], s[5], s[6]),
        announced: two(s[7], s[8]),
        ended: s[1] as u32,
        start: two(s[9], s[10]),
        due: two(s[11], s[12]),
        count: two(s[13], s[14]),
    }
}

// The state of a collector.
pub fn state_of(c: Collector) -> [u8; 16]
    ensures { result ≡ state_of c }
{
    let turn = turn_no(c.turn);
    let ended = c.ended.to_le_bytes();
    let ca = c.ca.to_le_bytes();
    let ioa = c.ioa.to_le_bytes();
    let announced = c.announced.to_le_bytes();
    let start = c.start.to_le_bytes();
    let due = c.due.to_le_bytes();
    let count = c.count.to_le_bytes();
    [
        turn,
        ended[0],
        ca[0],
        ca[1],
        ioa[0],
        ioa[1],
        ioa[2],
        announced[0],
        announced[1],
        start[0],
        start[1],
        due[0],
        due[1],
        count[0],
        count[1],
        0,
    ]
}
