// Where the value of a field stands among the cells of a record: the field k is `cells[k - 1]`.
use layout::fields;

pub const IDENTIFIER: usize = fields::IDENTIFIER - 1;

pub const UNIT: usize = fields::UNIT - 1;

pub const START: usize = fields::START - 1;

pub const END: usize = fields::END - 1;

pub const FIRST_VARIATION: usize = fields::FIRST_VARIATION - 1;

pub const SECOND_VARIATION: usize = fields::SECOND_VARIATION - 1;

pub const ORIGIN: usize = fields::ORIGIN - 1;

pub const UPDATE: usize = fields::UPDATE - 1;

pub const H1: usize = fields::H1 - 1;

pub const H2: usize = fields::H2 - 1;

pub const H3: usize = fields::H3 - 1;

pub const H4: usize = fields::H4 - 1;

pub const H5: usize = fields::H5 - 1;

pub const H6: usize = fields::H6 - 1;

pub const GRADIENTS: usize = fields::GRADIENTS - 1;

pub const TFIN1: usize = fields::TFIN1 - 1;

pub const TINI2: usize = fields::TINI2 - 1;

pub const TFIN2: usize = fields::TFIN2 - 1;

pub const MFRR_VARIATION: usize = fields::MFRR_VARIATION - 1;

pub const TIPO_COMANDO: usize = fields::TIPO_COMANDO - 1;

pub const SEQUENCE: usize = fields::SEQUENCE - 1;

pub const READMISSION: usize = fields::READMISSION - 1;

pub const EB_REASON: usize = fields::EB_REASON - 1;

pub const MAXIMUM: usize = fields::MAXIMUM - 1;

pub const MINIMUM: usize = fields::MINIMUM - 1;

pub const REINSTATEMENT: usize = fields::REINSTATEMENT - 1;

pub const LB_REASON: usize = fields::LB_REASON - 1;

pub const OPERATION: usize = fields::OPERATION - 1;

pub const HALF_BANDS: usize = fields::HALF_BANDS - 1;

pub const STATE: usize = fields::STATE - 1;

pub const MODE: usize = fields::MODE - 1;

pub const REGULATION: usize = fields::REGULATION - 1;

pub const VOLTAGE: usize = fields::VOLTAGE - 1;

pub const REGULATOR: usize = fields::REGULATOR - 1;

pub const CHANGE: usize = fields::CHANGE - 1;

pub const REACTIVE: usize = fields::REACTIVE - 1;

pub const POWER: usize = fields::POWER - 1;

pub const EXTENT: usize = fields::EXTENT - 1;
