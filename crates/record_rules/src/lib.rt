// The rules across fields, by name and number 1 to 9, on a record's values.
#![tactic(auto)]

ghost use Rattle.layout.specs.declared.Layout.TheVariants.{Market, VoltVar};
ghost use Rattle.record_rules.specs.Rules.{ordered, ramped, updates, only_if, is_full, fills, rises, slopes, excludes, limits, bands, quantifies, rule, lowest, rules_of};
ghost use Rattle.record_rules.specs.Rules.{broken_in};
ghost use Rattle.record_rules.specs.Broken.{rule_number, broken_number};
ghost use Rattle.value_ask.specs.Values.{is_filled, is_word, instant_in, amount_in};
ghost use Rattle.text.specs.Bytes.{all};
ghost use Rattle.record_voltvar.specs.Table.{line_in, is_row};
ghost use Rattle.std.specs.Prelude.{take, [], ◌∷◌, ◌≡◌};
ghost use Rattle.std.specs.Int.Signed.{le_z};

use layout::Layout;
use record::{Cell, Record, at};
use value_ask::{
    amount_in, instant_in, is_filled, list_size, not_negative, triples_in, word_number,
};
use value_list::Triple;
use value_word::names;

// A rule across fields, in the order of docs/REFUSALS.md: the first is rule 1.
#[derive(Clone, Copy, PartialEq, Eq, Debug)]
pub enum Rule {
    Order,
    Update,
    Profile,
    Gradients,
    Exclusion,
    Limitation,
    HalfBands,
    VoltVar,
    Quantities,
}

impl Rule {
    pub fn number(self) -> u8
        ensures { result ≡ rule_number self }
    {
        match self {
            Rule::Order => 1,
            Rule::Update => 2,
            Rule::Profile => 3,
            Rule::Gradients => 4,
            Rule::Exclusion => 5,
            Rule::Limitation => 6,
            Rule::HalfBands => 7,
            Rule::VoltVar => 8,
            Rule::Quantities => 9,
        }
    }
}

// Whether a field is filled.
fn filled(c: Cell) -> bool
    ensures { result ≡ is_filled c.value }
{
    is_filled(c.value)
}

// The field is the word w.
fn says(c: Cell, w: u8) -> bool
    ensures { result ≡ is_word w c.value }
{
    word_number(c.value) == w
}

fn instant_at(c: Cell) -> u64
    ensures { result ≡ instant_in c.value }
{
    instant_in(c.value)
}

// 1. Start before end, by instant, where an end is filled.
fn in_order(start: Cell, end: Cell) -> bool
    ensures { result ≡ ordered start.value end.value }
{
    !filled(end) | (instant_at(start) < instant_at(end))
}

// 1. mFRR: TINI1 < TFIN1 <= TINI2 < TFIN2.
fn ramps(start1: Cell, end1: Cell, start2: Cell, end2: Cell) -> bool
    ensures { result ≡ ramped start1.value end1.value start2.value end2.value }
{
    let tini1 = instant_at(start1);
    let tfin1 = instant_at(end1);
    let tini2 = instant_at(start2);
    let tfin2 = instant_at(end2);
    (tini1 < tfin1) & (tfin1 <= tini2) & (tini2 < tfin2)
}

// 2. Update date filled exactly with SCWEB.
fn updated(origin: Cell, update: Cell) -> bool
    ensures { result ≡ updates origin.value update.value }
{
    filled(update) == says(origin, names::SCWEB)
}

// A line of four numbers.
fn full(c: Cell) -> bool
    ensures { result ≡ is_full c.value }
{
    list_size(c.value) == 4
}

// Below a filled line stands one of four numbers.
fn followed(line: Cell, below: Cell) -> bool
    ensures { result ≡ only_if (is_filled line.value) (is_full below.value) }
{
    !filled(line) | full(below)
}

// 3. Below a filled h line all are filled, with four numbers each: the first filled one may have fewer.
fn profiled(line1: Cell, line2: Cell, line3: Cell, line4: Cell, line5: Cell, line6: Cell) -> bool
    ensures { result ≡ fills line1.value line2.value line3.value line4.value line5.value line6.value }
{
    followed(line1, line2)
        & followed(line2, line3)
        & followed(line3, line4)
        & followed(line4, line5)
        & followed(line5, line6)
}

// 4. Pmin <= Pmax; gradient above 0.
fn rises(t: Triple) -> bool
    ensures { result ≡ rises t }
{
    (t.low <= t.high) & (0 < t.gradient)
}

fn all_rise(gradients: [Triple; 16], n: usize) -> bool
    ensures { result ≡ all rises (take n gradients) }
{
    gradients.iter().take(n).all(|t| rises(*t))
}

fn sloped(listed: Cell, gradients: [Triple; 16]) -> bool
    ensures { result ≡ slopes listed.value gradients }
{
    all_rise(gradients, triples_in(listed.value))
}

// 5. EB reason filled exactly when `Riammissione` is NO.
fn excluded(reason: Cell, again: Cell) -> bool
    ensures { result ≡ excludes reason.value again.value }
{
    filled(reason) == says(again, names::NO)
}

// The minimum of LB is at most its maximum.
fn at_most(maximum: Cell, minimum: Cell) -> bool
    ensures { result ≡ le_z (amount_in minimum.value) (amount_in maximum.value) }
{
    amount_in(minimum.value) <= amount_in(maximum.value)
}

// 6. LB: SI leaves both limits and the reason blank; NO has a reason and at least one limit; minimum <= maximum if both.
fn limited(maximum: Cell, minimum: Cell, cause: Cell, ended: Cell) -> bool
    ensures { result ≡ limits maximum.value minimum.value cause.value ended.value }
{
    let high = filled(maximum);
    let low = filled(minimum);
    let reason = filled(cause);
    if says(ended, names::SI) {
        return !high & !low & !reason;
    }
    reason & (high | low) & (!(high & low) | at_most(maximum, minimum))
}

// 7. SR: two numbers, neither negative, or blank with SOSPENSIONE only.
fn banded(operation: Cell, halves: Cell) -> bool
    ensures { result ≡ bands operation.value halves.value }
{
    if filled(halves) {
        return not_negative(halves.value);
    }
    says(operation, names::SOSPENSIONE)
}

// 9. QR: exactly one quantity filled.
fn quantified(power: Cell, extent: Cell) -> bool
    ensures { result ≡ quantifies power.value extent.value }
{
    filled(power) == !filled(extent)
}

// Rule 1 alone.
fn order_alone(holds: bool) -> Option<Rule>
    ensures { broken_number result ≡ lowest (rule 1 holds ∷ []) }
{
    if holds { None } else { Some(Rule::Order) }
}

// Rule 1, then one more.
fn order_and(start: Cell, end: Cell, other: Rule, holds: bool) -> Option<Rule>
    ensures { broken_number result ≡ lowest (rule 1 (ordered start.value end.value) ∷ rule (rule_number other) holds ∷ []) }
{
    if !in_order(start, end) {
        return Some(Rule::Order);
    }
    if !holds {
        return Some(other);
    }
    None
}

// The lowest broken rule of each layout's values; none where all hold.

pub fn of_market(
    start: Cell,
    end: Cell,
    origin: Cell,
    update: Cell,
    line1: Cell,
    line2: Cell,
    line3: Cell,
    line4: Cell,
    line5: Cell,
    line6: Cell,
    listed: Cell,
    gradients: [Triple; 16],
) -> Option<Rule>
    ensures { broken_number result ≡ lowest (
        rule 1 (ordered start.value end.value)
        ∷ rule 2 (updates origin.value update.value)
        ∷ rule 3 (fills line1.value line2.value line3.value line4.value line5.value line6.value)
        ∷ rule 4 (slopes listed.value gradients)
        ∷ []) }
{
    if !in_order(start, end) {
        return Some(Rule::Order);
    }
    if !updated(origin, update) {
        return Some(Rule::Update);
    }
    if !profiled(line1, line2, line3, line4, line5, line6) {
        return Some(Rule::Profile);
    }
    if !sloped(listed, gradients) {
        return Some(Rule::Gradients);
    }
    None
}

pub fn of_ramps(start1: Cell, end1: Cell, start2: Cell, end2: Cell) -> Option<Rule>
    ensures { broken_number result ≡ lowest (rule 1 (ramped start1.value end1.value start2.value end2.value) ∷ []) }
{
    order_alone(ramps(start1, end1, start2, end2))
}

pub fn of_order(start: Cell, end: Cell) -> Option<Rule>
    ensures { broken_number result ≡ lowest (rule 1 (ordered start.value end.value) ∷ []) }
{
    order_alone(in_order(start, end))
}

pub fn of_exclusion(start: Cell, end: Cell, reason: Cell, again: Cell) -> Option<Rule>
    ensures { broken_number result ≡ lowest (rule 1 (ordered start.value end.value) ∷ rule 5 (excludes reason.value again.value) ∷ []) }
{
    order_and(start, end, Rule::Exclusion, excluded(reason, again))
}

pub fn of_limitation(
    start: Cell,
    end: Cell,
    maximum: Cell,
    minimum: Cell,
    reason: Cell,
    ended: Cell,
) -> Option<Rule>
    ensures { broken_number result ≡ lowest (rule 1 (ordered start.value end.value) ∷ rule 6 (limits maximum.value minimum.value reason.value ended.value) ∷ []) }
{
    order_and(
        start,
        end,
        Rule::Limitation,
        limited(maximum, minimum, reason, ended),
    )
}

pub fn of_secondary(start: Cell, end: Cell, operation: Cell, halves: Cell) -> Option<Rule>
    ensures { broken_number result ≡ lowest (rule 1 (ordered start.value end.value) ∷ rule 7 (bands operation.value halves.value) ∷ []) }
{
    order_and(start, end, Rule::HalfBands, banded(operation, halves))
}

pub fn of_volt_var(
    start: Cell,
    end: Cell,
    state: Cell,
    mode: Cell,
    regulation: Cell,
    voltage: Cell,
    regulator: Cell,
    change: Cell,
    reactive: Cell,
) -> Option<Rule>
    ensures { broken_number result ≡ lowest (
        rule 1 (ordered start.value end.value)
        ∷ rule 8 (is_row (line_in state.value mode.value regulation.value voltage.value regulator.value change.value reactive.value))
        ∷ []) }
{
    order_and(
        start,
        end,
        Rule::VoltVar,
        record_voltvar::in_table(
            state, mode, regulation, voltage, regulator, change, reactive,
        ),
    )
}

pub fn of_reserve(start: Cell, end: Cell, power: Cell, extent: Cell) -> Option<Rule>
    ensures { broken_number result ≡ lowest (rule 1 (ordered start.value end.value) ∷ rule 9 (quantifies power.value extent.value) ∷ []) }
{
    order_and(start, end, Rule::Quantities, quantified(power, extent))
}

// The same by the cells, of the two layouts whose rules ask for most of them.

fn lowest_of_market(cells: &[Cell; 26], gradients: &[Triple; 16]) -> Option<Rule>
    ensures { broken_number result ≡ lowest (rules_of Market cells.now gradients.now) }
{
    of_market(
        cells[at::START],
        cells[at::END],
        cells[at::ORIGIN],
        cells[at::UPDATE],
        cells[at::H1],
        cells[at::H2],
        cells[at::H3],
        cells[at::H4],
        cells[at::H5],
        cells[at::H6],
        cells[at::GRADIENTS],
        *gradients,
    )
}

fn lowest_of_volt_var(cells: &[Cell; 26]) -> Option<Rule>
    ensures { broken_number result ≡ lowest (rules_of VoltVar cells.now []) }
{
    of_volt_var(
        cells[at::START],
        cells[at::END],
        cells[at::STATE],
        cells[at::MODE],
        cells[at::REGULATION],
        cells[at::VOLTAGE],
        cells[at::REGULATOR],
        cells[at::CHANGE],
        cells[at::REACTIVE],
    )
}

// The lowest broken rule of a layout's values; none where all hold.
pub fn lowest_of(l: Layout, cells: &[Cell; 26], gradients: &[Triple; 16]) -> Option<Rule>
    ensures { broken_number result ≡ lowest (rules_of l cells.now gradients.now) }
{
    let start = cells[at::START];
    let end = cells[at::END];
    match l {
        Layout::Market => lowest_of_market(cells, gradients),
        Layout::Mfrr => of_ramps(start, cells[at::TFIN1], cells[at::TINI2], cells[at::TFIN2]),
        Layout::Exclusion => of_exclusion(start, end, cells[at::EB_REASON], cells[at::READMISSION]),
        Layout::Limitation => of_limitation(
            start,
            end,
            cells[at::MAXIMUM],
            cells[at::MINIMUM],
            cells[at::LB_REASON],
            cells[at::REINSTATEMENT],
        ),
        Layout::Secondary => of_secondary(start, end, cells[at::OPERATION], cells[at::HALF_BANDS]),
        Layout::VoltVar => lowest_of_volt_var(cells),
        Layout::Reserve => of_reserve(start, end, cells[at::POWER], cells[at::EXTENT]),
        _ => of_order(start, end),
    }
}

// The lowest broken rule of a record; none where all hold.
pub fn lowest_broken(r: Record) -> Option<Rule>
    ensures { broken_number result ≡ broken_in r }
{
    lowest_of(r.layout, &r.cells, &r.gradients)
}
