// The names of the words, as they are printed: those of specs/Names.antt.

// What no word is.
pub const NO_WORD: u8 = 0;

// Gradient and continuation, of the market layout.
pub const NORMALE: u8 = 1;

pub const STAI: u8 = 2;

pub const MANTIENI_DIFFERENZA: u8 = 3;

// Yes and no, of CB, EB and LB.
pub const SI: u8 = 4;

pub const NO: u8 = 5;

// Origin of the technical data, of the market layout.
pub const GAUDI: u8 = 6;

pub const SCWEB: u8 = 7;

// `Tipo Comando`, of mFRR.
pub const SA: u8 = 8;

pub const DA: u8 = 9;

// Operation, of SR.
pub const SOSPENSIONE: u8 = 10;

pub const INSERIMENTO: u8 = 11;

pub const PROGRAMMA: u8 = 12;

// State, of VQ.
pub const I: u8 = 13;

pub const E: u8 = 14;

// Mode, of VQ.
pub const RRT: u8 = 15;

pub const RTS: u8 = 16;

pub const RAT: u8 = 17;

pub const MAN: u8 = 18;

// Regulation, of VQ.
pub const PROFILO_MEMORIZZATO: u8 = 19;

pub const VSRIF: u8 = 20;

pub const TENSIONE_MT: u8 = 21;

pub const POTENZA_REATTIVA: u8 = 22;

// Voltage and regulator settings, of VQ.
pub const V_MAX: u8 = 23;

pub const V_MIN: u8 = 24;

// Reactive power, of VQ.
pub const Q_ZERO: u8 = 25;

pub const MAX_SOVRAECCITAZIONE: u8 = 26;

pub const MAX_SOTTOECCITAZIONE: u8 = 27;

// Reserve, of QR.
pub const RISERVA_A_SCENDERE: u8 = 28;

pub const RISERVA_A_SALIRE: u8 = 29;

// Quantity, of QR.
pub const FINO_A_PMIN: u8 = 30;

pub const FINO_A_PMAX: u8 = 31;
