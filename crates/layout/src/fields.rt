// Which field of a layout holds what, by its number from 1: the names of specs/FieldNumbers.antt.
ghost use Rattle.layout.specs.FieldNumbers.{end_field, reason_field, note_field, gradients_field};
ghost use Rattle.std.specs.Prelude.{◌≡◌};

use crate::Layout;

// Of every layout.
pub const IDENTIFIER: usize = 1;

pub const UNIT: usize = 2;

pub const START: usize = 3;

// The end, of every layout but mFRR.
pub const END: usize = 4;

// Of the market layout: variations, start-up and ramp time, origin of the technical data and their update, profile, gradients.
pub const FIRST_VARIATION: usize = 5;

pub const SECOND_VARIATION: usize = 6;

pub const START_UP: usize = 13;

pub const RAMP: usize = 14;

pub const ORIGIN: usize = 18;

pub const UPDATE: usize = 19;

pub const H1: usize = 20;

pub const H2: usize = 21;

pub const H3: usize = 22;

pub const H4: usize = 23;

pub const H5: usize = 24;

pub const H6: usize = 25;

pub const GRADIENTS: usize = 26;

// Of mFRR: the ends of its two ramps (TINI1 is its start), its one variation, and `Tipo Comando`.
pub const TFIN1: usize = 4;

pub const TINI2: usize = 5;

pub const TFIN2: usize = 6;

pub const MFRR_VARIATION: usize = 7;

pub const TIPO_COMANDO: usize = 8;

// Of RC: `Sequenza Comando`.
pub const SEQUENCE: usize = 5;

// Of EB: `Riammissione`.
pub const READMISSION: usize = 7;

// Of LB: its limits, and `Reintegro`.
pub const MAXIMUM: usize = 5;

pub const MINIMUM: usize = 6;

pub const REINSTATEMENT: usize = 9;

// Of SR: operation and half-bands.
pub const OPERATION: usize = 5;

pub const HALF_BANDS: usize = 6;

// Of VQ: state, mode, regulation, and the four settings.
pub const STATE: usize = 5;

pub const MODE: usize = 6;

pub const REGULATION: usize = 7;

pub const VOLTAGE: usize = 8;

pub const REGULATOR: usize = 9;

pub const CHANGE: usize = 10;

pub const REACTIVE: usize = 11;

// Of QR: its quantity in MW, and as a word.
pub const POWER: usize = 6;

pub const EXTENT: usize = 7;

// The reasons of EB and LB, which rules ask for.
pub const EB_REASON: usize = 5;

pub const LB_REASON: usize = 7;

// The field with the end: TFIN2 for mFRR.
pub fn end_field(l: Layout) -> usize
    ensures { result ≡ end_field l }
{
    match l {
        Layout::Mfrr => TFIN2,
        _ => END,
    }
}

// The field with the reason: 0 where the layout has none.
pub fn reason_field(l: Layout) -> usize
    ensures { result ≡ reason_field l }
{
    match l {
        Layout::Exclusion => EB_REASON,
        Layout::Limitation => LB_REASON,
        Layout::Secondary => 7,
        Layout::Generic | Layout::Rejection => 5,
        _ => 0,
    }
}

// The field with the note: 0 where the layout has none.
pub fn note_field(l: Layout) -> usize
    ensures { result ≡ note_field l }
{
    match l {
        Layout::Generic | Layout::Exclusion | Layout::Rejection => 6,
        Layout::Limitation | Layout::Secondary | Layout::Reserve => 8,
        Layout::VoltVar => 12,
        _ => 0,
    }
}

// The field with the gradients: 0 where the layout has none.
pub fn gradients_field(l: Layout) -> usize
    ensures { result ≡ gradients_field l }
{
    match l {
        Layout::Market => GRADIENTS,
        _ => 0,
    }
}
