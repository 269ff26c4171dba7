// An order as the book holds it: what it takes of a CB record, whether it is in force, and what a held order may be.
#![tactic(auto)]

ghost use Rattle.std.specs.Prelude.{◌≤◌, ◌≡◌};
ghost use Rattle.value_ask.specs.Values.{instant_in};
ghost use Rattle.report_brief.specs.Brief.{start_of, end_of};
ghost use Rattle.book_order.specs.Messages.{first_variation, second_variation, order_of, strike_of};
ghost use Rattle.book_order.specs.Orders.{time_of, live, strike_for, could_strike, struck_as, struck_by, is_whole, is_partial, is_empty, fits_layout, could_come};
ghost use Rattle.book_order.specs.Orders.{is_brought, could_hold};
ghost use Rattle.refusal.specs.Results.{detail_in};

use book_stretch::Stretch;
use layout::{Layout, fields};
use record::{Cell, Record};
use refusal::Refusal;

// Start and end are instants, the variations thousandths of a megawatt. Of mFRR: TINI1 and TFIN2, its one variation and 0. What is struck of it are up to
// four stretches of its time.
#[derive(Clone, Copy)]
pub struct Order {
    pub number: u64,
    pub start: u32,
    pub end: u32,
    pub first: i32,
    pub second: i32,
    pub layout: Layout,
    pub struck: [Stretch; 4],
}

// An empty place. It is known by its end: an order may have the number 0.
pub const EMPTY: Order = Order {
    number: 0,
    start: 0,
    end: 0,
    first: 0,
    second: 0,
    layout: Layout::Market,
    struck: [book_stretch::NONE; 4],
};

fn first_variation(l: Layout, cells: [Cell; 26]) -> i32
    ensures { result ≡ first_variation l cells }
{
    match l {
        Layout::Market => value_ask::amount_in(record::field(cells, fields::FIRST_VARIATION)),
        Layout::Mfrr => value_ask::amount_in(record::field(cells, fields::MFRR_VARIATION)),
        _ => 0,
    }
}

fn second_variation(l: Layout, cells: [Cell; 26]) -> i32
    ensures { result ≡ second_variation l cells }
{
    match l {
        Layout::Market => value_ask::amount_in(record::field(cells, fields::SECOND_VARIATION)),
        _ => 0,
    }
}

// The order that a command brings. A valid record's instants fit 32 bits.
pub fn of_record(r: Record) -> Order
    requires { (instant_in (start_of r) ≤ 4294967295) × (instant_in (end_of r) ≤ 4294967295) }
    ensures { result ≡ order_of r }
{
    let told = report_brief::of_record(r);
    let start = told.start;
    let end = told.end;
    let layout = r.layout;
    let cells = r.cells;
    Order {
        number: told.number,
        start: value_ask::instant_in(start) as u32,
        end: value_ask::instant_in(end) as u32,
        first: first_variation(layout, cells),
        second: second_variation(layout, cells),
        layout,
        struck: [book_stretch::NONE; 4],
    }
}

// The number of the order that a revocation names.
pub fn named_by(r: Record) -> u64
    ensures { result ≡ (strike_of r).name.number }
{
    let cells = r.cells;
    value_ask::count_in(record::field(cells, fields::SEQUENCE))
}

// The stretch that it strikes. A valid record's instants fit 32 bits.
pub fn struck_by(r: Record) -> Stretch
    requires { (instant_in (start_of r) ≤ 4294967295) × (instant_in (end_of r) ≤ 4294967295) }
    ensures { result ≡ (strike_of r).over }
{
    let told = report_brief::of_record(r);
    let start = told.start;
    let end = told.end;
    Stretch {
        from: value_ask::instant_in(start) as u32,
        to: value_ask::instant_in(end) as u32,
    }
}

// Whether some valid RC record names this number and strikes this stretch.
pub fn could_strike(n: u64, over: Stretch) -> bool
    ensures { result ≡ could_strike (strike_for n over) }
{
    (n <= value_bounds::MOST_NUMBER)
        & value_bounds::is_instant(over.from)
        & value_bounds::is_instant(over.to)
        & (over.from < over.to)
}

// An order's own time.
fn time_of(o: Order) -> Stretch
    ensures { result ≡ time_of o }
{
    Stretch {
        from: o.start,
        to: o.end,
    }
}

// The order with a stretch of it struck. 31: the stretch is not inside the order. 26: it is struck already. 32: it would be a fifth.
pub fn strike(o: Order, over: Stretch) -> Result<Order, Refusal>
    ensures { (struck_as o result ≡ struck_by over o) × (detail_in result ≡ 0) }
{
    if !book_stretch::lies(over, time_of(o)) {
        return Err(Refusal::OutsideItsOrder);
    }
    let struck = o.struck;
    if book_stretch::any_holds(struck, over) {
        return Err(Refusal::StruckAlready);
    }
    let joined = book_stretch::join(struck, over);
    if 4 < joined.count {
        return Err(Refusal::FifthStretch);
    }
    let list = joined.list;
    let mut s = o;
    s.struck = list;
    Ok(s)
}

// Whether all of an order is struck.
pub fn is_whole(o: Order) -> bool
    ensures { result ≡ is_whole o }
{
    let struck = o.struck;
    book_stretch::any_holds(struck, time_of(o))
}

// Whether a part of it is, and not all.
pub fn is_partial(o: Order) -> bool
    ensures { result ≡ is_partial o }
{
    let struck = o.struck;
    !book_stretch::are_none(struck) & !is_whole(o)
}

// Whether an order is in force at t.
pub fn is_live(o: Order, t: u32) -> bool
    ensures { result ≡ live t o }
{
    if (t < o.start) | (o.end <= t) {
        return false;
    }
    let struck = o.struck;
    !book_stretch::any_covers(struck, t)
}

// Whether a place is empty: all zero.
pub fn is_empty(o: Order) -> bool
    ensures { result ≡ is_empty o }
{
    let l = o.layout;
    let struck = o.struck;
    (o.number == 0)
        & layout::is_market(l)
        & (o.start == 0)
        & (o.end == 0)
        & (o.first == 0)
        & (o.second == 0)
        & book_stretch::are_none(struck)
}

fn fits_layout(l: Layout, apart: u32, second: i32) -> bool
    ensures { result ≡ fits_layout l apart second }
{
    match l {
        Layout::Market => (0 < apart) & value_bounds::is_amount(second),
        Layout::Mfrr => (1 < apart) & (second == 0),
        _ => false,
    }
}

// Whether some valid CB record gives the order, struck or not. One test after another: an order that is held passes them all, and tests that are joined
// would have to be kept until the last of them.
pub fn could_come(o: Order) -> bool
    ensures { result ≡ could_come o }
{
    if o.end < o.start {
        return false;
    }
    if value_bounds::MOST_NUMBER < o.number {
        return false;
    }
    if !value_bounds::is_instant(o.start) {
        return false;
    }
    if !value_bounds::is_instant(o.end) {
        return false;
    }
    if !value_bounds::is_amount(o.first) {
        return false;
    }
    let l = o.layout;
    fits_layout(l, o.end - o.start, o.second)
}

// Whether some valid CB record brings the order: nothing of it is struck.
pub fn is_brought(o: Order) -> bool
    ensures { result ≡ is_brought o }
{
    let struck = o.struck;
    could_come(o) & book_stretch::are_none(struck)
}

// Whether a book may hold the order: some valid CB record gives it, and what is struck of it is well formed.
pub fn could_hold(o: Order) -> bool
    ensures { result ≡ could_hold o }
{
    if !could_come(o) {
        return false;
    }
    let struck = o.struck;
    book_stretch::are_formed(struck, time_of(o))
}
