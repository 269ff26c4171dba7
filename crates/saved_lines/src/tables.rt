// The tables: which line comes next, by the values of the lines above.
ghost use Rattle.std.specs.Prelude.{max, ◌≤◌, take, get_or, ◌≡◌};
ghost use Rattle.saved_lines.specs.Tables.{apart_of, amount_line, second_line, form_lines, head_lines, order_lines, next_of};
ghost use Rattle.saved_lines.specs.Values.{Done, Line, next_by, Small};

use crate::{Above, Key, MOST_AMOUNT, NextLine, Sort, Table, ZERO_AMOUNT};

const FIRST: u64 = value_bounds::FIRST_INSTANT as u64;

const LAST: u64 = value_bounds::LAST_INSTANT as u64;

// How far start and end are apart at least: a second, of mFRR two.
const MFRR_APART: u64 = 2;

fn apart_of(kind: u64) -> u64
    ensures { result ≡ apart_of kind }
{
    if kind == 0 {
        return 1;
    }
    MFRR_APART
}

fn line(key: Key, sort: Sort, least: u64, most: u64) -> Option<NextLine>
    ensures { next_by result ≡ Line key sort least most }
{
    Some(NextLine {
        key,
        sort,
        least,
        most,
    })
}

fn amount_line(k: Key) -> Option<NextLine>
    ensures { next_by result ≡ amount_line k }
{
    line(k, Sort::Amount, 1, ZERO_AMOUNT + MOST_AMOUNT)
}

// Market: an amount. mFRR has one variation, and 0 stands for the second.
fn second_line(kind: u64) -> Option<NextLine>
    ensures { next_by result ≡ second_line kind }
{
    if kind == 0 {
        return amount_line(Key::Var2);
    }
    line(Key::Var2, Sort::Amount, ZERO_AMOUNT, ZERO_AMOUNT)
}

fn later(a: u64, b: u64) -> u64
    ensures { result ≡ max a b }
{
    if a < b {
        return b;
    }
    a
}

fn order_line(a: Above, v: [u64; 18], n: usize) -> Option<NextLine>
    requires { (n ≤ 18) × Small v }
    ensures { next_by result ≡ get_or (order_lines a (take n v)) n Done }
{
    match n {
        0 => line(Key::Number, Sort::Whole, a.least, value_bounds::MOST_NUMBER),
        1 => line(Key::Kind, Sort::Letter, 0, 1),
        2 => line(Key::Start, Sort::Whole, FIRST, LAST - apart_of(v[1])),
        3 => line(
            Key::End,
            Sort::Whole,
            later(a.end, v[2] + apart_of(v[1])),
            LAST,
        ),
        4 => amount_line(Key::Var1),
        5 => second_line(v[1]),
        6 => line(Key::Struck, Sort::Whole, 0, 1),
        _ => None,
    }
}

fn head_line(n: usize) -> Option<NextLine>
    ensures { next_by result ≡ get_or head_lines n Done }
{
    match n {
        0 => line(Key::Floor, Sort::Whole, 0, 4294967295),
        1 => line(Key::Count, Sort::Whole, 0, 96),
        _ => None,
    }
}

fn form_line(n: usize) -> Option<NextLine>
    ensures { next_by result ≡ get_or form_lines n Done }
{
    match n {
        0 => line(Key::Form, Sort::Whole, 1, 1),
        _ => None,
    }
}

// The line after those with the first n values.
pub fn next_of(t: Table, a: Above, v: [u64; 18], n: usize) -> Option<NextLine>
    requires { (n ≤ 18) × Small v }
    ensures { next_by result ≡ next_of t a (take n v) }
{
    match t {
        Table::Form => form_line(n),
        Table::Head => head_line(n),
        Table::Order => order_line(a, v, n),
    }
}
