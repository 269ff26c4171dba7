// Rule 8: a VQ message is one of the eleven rows of the table of Annex A.34, 2.9.
#![tactic(auto)]

ghost use Rattle.std.specs.Prelude.{◌<◌, get_or, ◌≡◌};
ghost use Rattle.record_voltvar.specs.Table.{line, table, form_of, line_in, takes, meets, is_row};
ghost use Rattle.record_voltvar.specs.Forms.{form_number, line_by};
ghost use Rattle.value_ask.specs.Values.{word_number};

use Form::{Blank, Either, Number, Word};
use record::Cell;
use value::Value;
use value_ask::{is_filled, word_number};
use value_word::names::{
    E, I, MAN, NO_WORD, POTENZA_REATTIVA, PROFILO_MEMORIZZATO, RAT, RRT, RTS, TENSIONE_MT, VSRIF,
};

// What a setting is, and of the table also either of a number and a word.
#[derive(Clone, Copy, PartialEq, Eq)]
pub enum Form {
    Blank,
    Number,
    Word,
    Either,
}

// State, mode and regulation are words, `NO_WORD` for a blank; the others are settings.
#[derive(Clone, Copy, PartialEq, Eq)]
pub struct Line {
    pub state: u8,
    pub mode: u8,
    pub regulation: u8,
    pub voltage: Form,
    pub regulator: Form,
    pub change: Form,
    pub reactive: Form,
}

fn row_of(
    state: u8,
    mode: u8,
    regulation: u8,
    voltage: Form,
    regulator: Form,
    change: Form,
    reactive: Form,
) -> Line
    ensures { line_by result
        ≡ line state mode regulation (form_number voltage) (form_number regulator) (form_number change) (form_number reactive) }
{
    Line {
        state,
        mode,
        regulation,
        voltage,
        regulator,
        change,
        reactive,
    }
}

// The rows, from 0.
fn table_row(k: usize) -> Line
    requires { k < 11 }
    ensures { line_by result ≡ get_or table k (line 0 0 0 0 0 0 0) }
{
    match k {
        0 => row_of(I, RRT, NO_WORD, Blank, Blank, Blank, Blank),
        1 => row_of(I, RTS, PROFILO_MEMORIZZATO, Blank, Blank, Blank, Blank),
        2 => row_of(I, RTS, VSRIF, Either, Blank, Blank, Blank),
        3 => row_of(NO_WORD, RTS, VSRIF, Number, Blank, Blank, Blank),
        4 => row_of(I, RTS, VSRIF, Word, Blank, Number, Blank),
        5 => row_of(E, RAT, TENSIONE_MT, Blank, Either, Blank, Blank),
        6 => row_of(NO_WORD, RAT, TENSIONE_MT, Blank, Either, Blank, Blank),
        7 => row_of(E, RAT, TENSIONE_MT, Blank, Word, Number, Blank),
        8 => row_of(NO_WORD, RAT, TENSIONE_MT, Blank, Word, Number, Blank),
        9 => row_of(E, MAN, POTENZA_REATTIVA, Blank, Blank, Blank, Either),
        _ => row_of(NO_WORD, MAN, POTENZA_REATTIVA, Blank, Blank, Blank, Either),
    }
}

// Blank, a number or a word.
fn form_of(v: Value) -> Form
    ensures { form_number result ≡ form_of v }
{
    if !is_filled(v) {
        return Blank;
    }
    if word_number(v) == NO_WORD {
        return Number;
    }
    Word
}

fn word_in(c: Cell) -> u8
    ensures { result ≡ word_number c.value }
{
    word_number(c.value)
}

fn form_in(c: Cell) -> Form
    ensures { form_number result ≡ form_of c.value }
{
    form_of(c.value)
}

// The line of a message's values.
fn line_of(
    state: Cell,
    mode: Cell,
    regulation: Cell,
    voltage: Cell,
    regulator: Cell,
    change: Cell,
    reactive: Cell,
) -> Line
    ensures { line_by result ≡ line_in state.value mode.value regulation.value voltage.value regulator.value change.value reactive.value }
{
    row_of(
        word_in(state),
        word_in(mode),
        word_in(regulation),
        form_in(voltage),
        form_in(regulator),
        form_in(change),
        form_in(reactive),
    )
}

fn takes(asked: Form, is: Form) -> bool
    ensures { result ≡ takes (form_number asked) (form_number is) }
{
    (is == asked) | ((asked == Either) & (is != Blank))
}

fn fits(l: Line, row: Line) -> bool
    ensures { result ≡ meets (line_by l) (line_by row) }
{
    (l.state == row.state)
        & (l.mode == row.mode)
        & (l.regulation == row.regulation)
        & takes(row.voltage, l.voltage)
        & takes(row.regulator, l.regulator)
        & takes(row.change, l.change)
        & takes(row.reactive, l.reactive)
}

pub fn in_table(
    state: Cell,
    mode: Cell,
    regulation: Cell,
    voltage: Cell,
    regulator: Cell,
    change: Cell,
    reactive: Cell,
) -> bool
    ensures { result ≡ is_row (line_in state.value mode.value regulation.value voltage.value regulator.value change.value reactive.value) }
{
    let l = line_of(
        state, mode, regulation, voltage, regulator, change, reactive,
    );
    for k in 0..11 {
        if fits(l, table_row(k)) {
            return true;
        }
    }
    false
}
