// The ten layouts of messages. Its specs/ is the one table of fields, labels, kinds, rows and banners; the crates layout_label, layout_kind and
// layout_banner tie the code's own tables to it, and this one its sizes and the order of its rows.
#![tactic(auto)]

pub mod fields;
pub mod row;

ghost use Rattle.layout.specs.Layouts.{type_of, layout_of, is_market, is_command, is_revocation, size_of};
ghost use Rattle.std.specs.Prelude.{◌≡◌};

use value_name::MessageType;

// The type CB has two layouts, every other type has one.
#[derive(Clone, Copy, PartialEq, Eq, Debug)]
pub enum Layout {
    Market,
    Mfrr,
    Revocation,
    Generic,
    Exclusion,
    Limitation,
    Secondary,
    VoltVar,
    Rejection,
    Reserve,
}

// The type whose layout it is.
pub fn type_of(l: Layout) -> MessageType
    ensures { result ≡ type_of l }
{
    match l {
        Layout::Market => MessageType::Cb,
        Layout::Mfrr => MessageType::Cb,
        Layout::Revocation => MessageType::Rc,
        Layout::Generic => MessageType::Mg,
        Layout::Exclusion => MessageType::Eb,
        Layout::Limitation => MessageType::Lb,
        Layout::Secondary => MessageType::Sr,
        Layout::VoltVar => MessageType::Vq,
        Layout::Rejection => MessageType::Ri,
        Layout::Reserve => MessageType::Qr,
    }
}

// The layout of a type; of CB the market layout.
pub fn of_type(t: MessageType) -> Layout
    ensures { result ≡ layout_of t }
{
    match t {
        MessageType::Cb => Layout::Market,
        MessageType::Rc => Layout::Revocation,
        MessageType::Mg => Layout::Generic,
        MessageType::Eb => Layout::Exclusion,
        MessageType::Lb => Layout::Limitation,
        MessageType::Sr => Layout::Secondary,
        MessageType::Vq => Layout::VoltVar,
        MessageType::Ri => Layout::Rejection,
        MessageType::Qr => Layout::Reserve,
    }
}

// The market layout.
pub fn is_market(l: Layout) -> bool
    ensures { result ≡ is_market l }
{
    matches!(l, Layout::Market)
}

// A CB of either layout.
pub fn is_command(l: Layout) -> bool
    ensures { result ≡ is_command l }
{
    matches!(l, Layout::Market | Layout::Mfrr)
}

// An RC.
pub fn is_revocation(l: Layout) -> bool
    ensures { result ≡ is_revocation l }
{
    matches!(l, Layout::Revocation)
}

// How many fields it has.
pub fn size(l: Layout) -> usize
    ensures { result ≡ size_of l }
{
    match l {
        Layout::Market => 26,
        Layout::Mfrr => 12,
        Layout::Revocation => 5,
        Layout::Generic => 7,
        Layout::Exclusion => 8,
        Layout::Limitation => 10,
        Layout::Secondary => 9,
        Layout::VoltVar => 13,
        Layout::Rejection => 6,
        Layout::Reserve => 9,
    }
}
