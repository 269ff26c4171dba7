// A file from its segments: units of a transfer go in one by one, and the file comes out whole, or a refusal. The octets stand in a room that the caller
// lends, of 8,192, so that none can lend too little; the collector goes by value and says how far the room is filled. Sums are not kept: a section's octets
// stand in the room, so nothing in the collector could disagree with them. A caller may have built the collector from anything: each is answered.
#![tactic(auto)]

pub mod state;

ghost use Rattle.std.specs.Prelude.{◌≤◌, ◌+◌, ◌%◌, eqb, ltb, ◌&&◌, [], ◌≡◌};
ghost use Rattle.transfer_unit.specs.declared.Told.TheVariants.{FileReady, SectionReady, Segment, LastSegment, LastSection};
ghost use Rattle.transfer.specs.Collect.{More, is_within, fresh, checksum, elsewhere, taken, dropped, taken_as, kept_as, taken_of, room_after};
ghost use Rattle.refusal.specs.Numbers.{number_of, detail_of};
ghost use Rattle.refusal.specs.Results.{detail_in};
ghost use Rattle.transfer.specs.Said.{ended_by, taken_by};

use refusal::Refusal;
use text::{put, scan};
use transfer_unit::Told;

// No transfer, between two sections of one, within one.
#[derive(Clone, Copy, PartialEq, Eq, Debug)]
pub enum Turn {
    Fresh,
    Between,
    Within,
}

// Of a transfer: its address and the length that was announced, how many sections have ended, where the open section starts and what length was announced for
// it, and how many octets are collected.
#[derive(Clone, Copy)]
pub struct Collector {
    pub turn: Turn,
    pub ca: u32,
    pub ioa: u32,
    pub announced: u32,
    pub ended: u32,
    pub start: u32,
    pub due: u32,
    pub count: u32,
}

// A file that is whole: its address, and how many octets it has.
#[derive(Clone, Copy, PartialEq, Eq, Debug)]
pub struct Whole {
    pub ca: u32,
    pub ioa: u32,
    pub size: usize,
}

// The answer to a unit, None where the file is not whole yet, and the collector that is handed back.
#[derive(Clone, Copy)]
pub struct Taken {
    pub heard: Result<Option<Whole>, Refusal>,
    pub collector: Collector,
}

// A collector without a transfer.
pub fn fresh() -> Collector
    ensures { result ≡ fresh }
{
    Collector {
        turn: Turn::Fresh,
        ca: 0,
        ioa: 0,
        announced: 0,
        ended: 0,
        start: 0,
        due: 0,
        count: 0,
    }
}

// A refused unit drops the transfer.
fn dropped(refusal: Refusal) -> Taken
    ensures { (taken_by result ≡ dropped (number_of refusal) 0) × (detail_in result.heard ≡ detail_of refusal) }
{
    Taken {
        heard: Err(refusal),
        collector: fresh(),
    }
}

// The answer to a unit that leaves the file not whole yet.
fn onward(collector: Collector) -> Taken
    ensures { (taken_by result ≡ taken More collector) × (detail_in result.heard ≡ 0) }
{
    Taken {
        heard: Ok(None),
        collector,
    }
}

// The sum of octets, which wraps at 256.
fn checksum(s: &[u8]) -> u8
    ensures { result ≡ checksum s.now }
{
    let mut sum = 0u8;
    for b in s {
        sum = sum.wrapping_add(*b);
    }
    sum
}

// In a transfer, a unit of another address. Asked of each unit, so without a branch between the three.
fn is_elsewhere(c: Collector, s: &[u8]) -> bool
    ensures { result ≡ elsewhere c s.now }
{
    (c.turn != Turn::Fresh)
        & ((transfer_unit::ca_of(s) != c.ca) | (transfer_unit::ioa_of(s) != c.ioa))
}

fn file_ready(c: Collector, s: &[u8], n: u32) -> Taken
    ensures { (taken_by result ≡ taken_as c s.now [] (FileReady n)) × (detail_in result.heard ≡ 0) }
{
    if c.turn != Turn::Fresh {
        return dropped(Refusal::OutOfTurn);
    }
    if 8192 < n {
        return dropped(Refusal::TooLong);
    }
    onward(Collector {
        turn: Turn::Between,
        ca: transfer_unit::ca_of(s),
        ioa: transfer_unit::ioa_of(s),
        announced: n,
        ..fresh()
    })
}

// Whether a unit names the section after those that have ended. (There is no 256th: no octet names it)
fn is_next(c: Collector, i: u8) -> bool
    ensures { result ≡ eqb i (c.ended + 1) }
{
    i as usize == c.ended as usize + 1
}

// Whether a unit names the section that is open.
fn is_open(c: Collector, i: u8) -> bool
    ensures { result ≡ (is_within c.turn && eqb i (c.ended + 1)) }
{
    c.turn == Turn::Within && is_next(c, i)
}

fn section_ready(c: Collector, i: u8, n: u32) -> Taken
    ensures { (taken_by result ≡ taken_as c [] [] (SectionReady i n)) × (detail_in result.heard ≡ 0) }
{
    if c.turn != Turn::Between || !is_next(c, i) {
        return dropped(Refusal::OutOfTurn);
    }
    if 8192 < n {
        return dropped(Refusal::TooLong);
    }
    onward(Collector {
        turn: Turn::Within,
        start: c.count,
        due: n,
        ..c
    })
}

// Keeps a segment's octets behind those collected.
fn segment(c: Collector, s: &[u8], file: &mut [u8; 8192], i: u8, n: u8) -> Taken
    ensures { (taken_by result ≡ taken_as c s.now file.old (Segment i n))
        × (file.new ≡ kept_as c s.now file.old (Segment i n))
        × (detail_in result.heard ≡ 0) }
{
    if !((c.turn == Turn::Within) & is_next(c, i)) {
        return dropped(Refusal::OutOfTurn);
    }
    let count = c.count as usize + n as usize;
    if 8192 < count {
        return dropped(Refusal::TooLong);
    }
    put::put_text(file, c.count as usize, scan::rest(s, 13));
    onward(Collector {
        turn: Turn::Within,
        count: count as u32,
        ..c
    })
}

// At the last unit of a section or of the file, whose octets are these: whether the checksum is theirs, whether they have the announced length, and whether not
// too many are collected (as a collector may say that no calls made).
fn ended(octets: &[u8], sum: u8, size: u32, announced: u32, count: u32) -> Result<(), Refusal>
    ensures { result ≡ ended_by (eqb sum (checksum octets.now)) (eqb size announced) (ltb 8192 count) }
{
    if sum != checksum(octets) {
        return Err(Refusal::WrongSum);
    }
    if size != announced {
        return Err(Refusal::WrongLength);
    }
    if 8192 < count {
        return Err(Refusal::TooLong);
    }
    Ok(())
}

fn last_segment(c: Collector, file: &[u8], i: u8, sum: u8) -> Taken
    ensures { (taken_by result ≡ taken_as c [] file.now (LastSegment i sum)) × (detail_in result.heard ≡ 0) }
{
    if !is_open(c, i) || c.count <= c.start {
        return dropped(Refusal::OutOfTurn);
    }
    let size = c.count - c.start;
    let section = scan::front(scan::rest(file, c.start as usize), size as usize);
    match ended(section, sum, size, c.due, c.count) {
        Ok(()) => onward(Collector {
            turn: Turn::Between,
            ended: i as u32,
            start: 0,
            due: 0,
            ..c
        }),
        Err(refusal) => dropped(refusal),
    }
}

fn last_section(c: Collector, file: &[u8], i: u8, sum: u8) -> Taken
    ensures { (taken_by result ≡ taken_as c [] file.now (LastSection i sum)) × (detail_in result.heard ≡ 0) }
{
    if c.turn != Turn::Between || i as u32 != c.ended || c.ended == 0 || c.count == 0 {
        return dropped(Refusal::OutOfTurn);
    }
    let octets = scan::front(file, c.count as usize);
    match ended(octets, sum, c.count, c.announced, c.count) {
        Ok(()) => Taken {
            heard: Ok(Some(Whole {
                ca: c.ca,
                ioa: c.ioa,
                size: c.count as usize,
            })),
            collector: fresh(),
        },
        Err(refusal) => dropped(refusal),
    }
}

impl Collector {
    // Takes one unit of a transfer.
    pub fn take(self, unit: &[u8], file: &mut [u8; 8192]) -> Taken
        ensures { (taken_by result ≡ taken_of self unit.now file.old)
            × (file.new ≡ room_after self unit.now file.old)
            × (detail_in result.heard ≡ 0) }
    {
        if is_elsewhere(self, unit) {
            return dropped(Refusal::ForeignUnit);
        }
        let told = transfer_unit::told_by(unit);
        match told {
            Told::FileReady(n) => file_ready(self, unit, n),
            Told::SectionReady(i, n) => section_ready(self, i, n),
            Told::Segment(i, n) => segment(self, unit, file, i, n),
            Told::LastSegment(i, sum) => last_segment(self, file, i, sum),
            Told::LastSection(i, sum) => last_section(self, file, i, sum),
            Told::Other => dropped(Refusal::ForeignUnit),
        }
    }
}
