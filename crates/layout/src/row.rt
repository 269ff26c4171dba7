// Which fields stand in the summary row, and in which order.
ghost use Rattle.std.specs.Prelude.{◌<◌, length, get_or, ◌≡◌};
ghost use Rattle.layout.specs.Rows.{row_fields};

use crate::{Layout, fields};

// How many fields stand in the row, before the halves of SR.
pub fn size(l: Layout) -> usize
    ensures { result ≡ length (row_fields l) }
{
    match l {
        Layout::Market => 26,
        Layout::Mfrr => 12,
        Layout::Revocation => 5,
        Layout::Generic => 5,
        Layout::Exclusion => 5,
        Layout::Limitation => 7,
        Layout::Secondary => 5,
        Layout::VoltVar => 13,
        Layout::Rejection => 4,
        Layout::Reserve => 7,
    }
}

// The field that stands at the place i of the row, from 0. Most rows are in the body's order.
pub fn field(l: Layout, i: usize) -> usize
    requires { i < length (row_fields l) }
    ensures { result ≡ get_or (row_fields l) i 0 }
{
    match l {
        Layout::Exclusion => exclusion_field(i),
        Layout::Limitation => limitation_field(i),
        _ => i + 1,
    }
}

fn exclusion_field(i: usize) -> usize
    requires { i < length (row_fields Layout.Exclusion) }
    ensures { result ≡ get_or (row_fields Layout.Exclusion) i 0 }
{
    match i {
        4 => fields::READMISSION,
        _ => i + 1,
    }
}

// The minimum first, the body has the maximum first.
fn limitation_field(i: usize) -> usize
    requires { i < length (row_fields Layout.Limitation) }
    ensures { result ≡ get_or (row_fields Layout.Limitation) i 0 }
{
    match i {
        4 => fields::MINIMUM,
        5 => fields::MAXIMUM,
        6 => fields::REINSTATEMENT,
        _ => i + 1,
    }
}
