// What each field of a layout may hold, and whether a blank may stand. The arms are the fields in printed order, so they go by number.
#![tactic(auto)]

ghost use Rattle.layout.specs.Fields.{command, technical, Field};
ghost use Rattle.layout.specs.Layouts.{kind_at, no_kind};
ghost use Rattle.std.specs.Prelude.{get_or, true, false, map, ◌≡◌};

use layout::Layout;
use value::{Kind, Shape};
use value_name::MessageType;
use value_word::names;

// A field that must be filled.
fn must(shape: Shape) -> Kind
    ensures { result ≡ record { shape = shape; blank = false } }
{
    Kind {
        shape,
        blank: false,
    }
}

// A field that may be blank.
fn may(shape: Shape) -> Kind
    ensures { result ≡ record { shape = shape; blank = true } }
{
    Kind { shape, blank: true }
}

// 2.3.1, fields 1 to 12 of the market layout, from 0.
fn command_kind(k: usize) -> Kind
    ensures { result ≡ get_or (map (λ (f : Field). f.kind) command) k no_kind }
{
    match k {
        0 => must(Shape::IsId(MessageType::Cb)),
        1 => must(Shape::IsUnit),
        2 => must(Shape::IsWhen),
        3 => must(Shape::IsWhen),
        4 => must(Shape::IsAmount),
        5 => must(Shape::IsAmount),
        6 => must(Shape::IsWord(names::NORMALE, names::NORMALE)),
        7 => must(Shape::IsWord(names::STAI, names::MANTIENI_DIFFERENZA)),
        8 => must(Shape::IsWord(names::NO, names::NO)),
        9 => must(Shape::IsAmount),
        10 => must(Shape::IsAmount),
        11 => must(Shape::IsWord(names::SI, names::NO)),
        _ => may(Shape::IsNote),
    }
}

// 2.3.1, fields 13 to 26, from 0.
fn technical_kind(k: usize) -> Kind
    ensures { result ≡ get_or (map (λ (f : Field). f.kind) technical) k no_kind }
{
    match k {
        0 => may(Shape::IsAmount),
        1 => may(Shape::IsAmount),
        2 => must(Shape::IsWord(names::SI, names::NO)),
        3 => must(Shape::IsWord(names::SI, names::NO)),
        4 => must(Shape::IsWhen),
        5 => must(Shape::IsWord(names::GAUDI, names::SCWEB)),
        6 => may(Shape::IsWhen),
        7 => may(Shape::IsProfile),
        8 => may(Shape::IsProfile),
        9 => may(Shape::IsProfile),
        10 => may(Shape::IsProfile),
        11 => may(Shape::IsProfile),
        12 => may(Shape::IsProfile),
        13 => must(Shape::IsTriples),
        _ => may(Shape::IsNote),
    }
}

fn market_kind(k: usize) -> Kind
    ensures { result ≡ kind_at Layout.Market k }
{
    match k {
        0 => may(Shape::IsNote),
        1..=12 => command_kind(k - 1),
        _ => technical_kind(k - 13),
    }
}

// 2.3.2, the mFRR layout.
fn mfrr_kind(k: usize) -> Kind
    ensures { result ≡ kind_at Layout.Mfrr k }
{
    match k {
        1 => must(Shape::IsId(MessageType::Cb)),
        2 => must(Shape::IsUnit),
        3 => must(Shape::IsWhen),
        4 => must(Shape::IsWhen),
        5 => must(Shape::IsWhen),
        6 => must(Shape::IsWhen),
        7 => must(Shape::IsAmount),
        8 => must(Shape::IsWord(names::SA, names::DA)),
        9 => must(Shape::IsAmount),
        10 => must(Shape::IsAmount),
        11 => must(Shape::IsAmount),
        12 => must(Shape::IsAmount),
        _ => may(Shape::IsNote),
    }
}

// 2.4, RC.
fn rc_kind(k: usize) -> Kind
    ensures { result ≡ kind_at Layout.Revocation k }
{
    match k {
        1 => must(Shape::IsId(MessageType::Rc)),
        2 => must(Shape::IsUnit),
        3 => must(Shape::IsWhen),
        4 => must(Shape::IsWhen),
        5 => must(Shape::IsCount),
        _ => may(Shape::IsNote),
    }
}

// 2.5, MG.
fn mg_kind(k: usize) -> Kind
    ensures { result ≡ kind_at Layout.Generic k }
{
    match k {
        1 => must(Shape::IsId(MessageType::Mg)),
        2 => must(Shape::IsUnit),
        3 => must(Shape::IsWhen),
        4 => must(Shape::IsWhen),
        5 => may(Shape::IsReason),
        6 => may(Shape::IsNote),
        7 => must(Shape::IsWhen),
        _ => may(Shape::IsNote),
    }
}

// 2.6, EB.
fn eb_kind(k: usize) -> Kind
    ensures { result ≡ kind_at Layout.Exclusion k }
{
    match k {
        1 => must(Shape::IsId(MessageType::Eb)),
        2 => must(Shape::IsUnit),
        3 => must(Shape::IsWhen),
        4 => must(Shape::IsWhen),
        5 => may(Shape::IsReason),
        6 => may(Shape::IsNote),
        7 => must(Shape::IsWord(names::SI, names::NO)),
        8 => must(Shape::IsWhen),
        _ => may(Shape::IsNote),
    }
}

// 2.7, LB.
fn lb_kind(k: usize) -> Kind
    ensures { result ≡ kind_at Layout.Limitation k }
{
    match k {
        1 => must(Shape::IsId(MessageType::Lb)),
        2 => must(Shape::IsUnit),
        3 => must(Shape::IsWhen),
        4 => must(Shape::IsWhen),
        5 => may(Shape::IsAmount),
        6 => may(Shape::IsAmount),
        7 => may(Shape::IsReason),
        8 => may(Shape::IsNote),
        9 => must(Shape::IsWord(names::SI, names::NO)),
        10 => must(Shape::IsWhen),
        _ => may(Shape::IsNote),
    }
}

// 2.8, SR.
fn sr_kind(k: usize) -> Kind
    ensures { result ≡ kind_at Layout.Secondary k }
{
    match k {
        1 => must(Shape::IsId(MessageType::Sr)),
        2 => must(Shape::IsUnit),
        3 => must(Shape::IsWhen),
        4 => must(Shape::IsWhen),
        5 => must(Shape::IsWord(names::SOSPENSIONE, names::PROGRAMMA)),
        6 => may(Shape::IsBands),
        7 => may(Shape::IsReason),
        8 => may(Shape::IsNote),
        9 => must(Shape::IsWhen),
        _ => may(Shape::IsNote),
    }
}

// 2.9, VQ.
fn vq_kind(k: usize) -> Kind
    ensures { result ≡ kind_at Layout.VoltVar k }
{
    match k {
        1 => must(Shape::IsId(MessageType::Vq)),
        2 => must(Shape::IsUnit),
        3 => must(Shape::IsWhen),
        4 => may(Shape::IsWhen),
        5 => may(Shape::IsWord(names::I, names::E)),
        6 => must(Shape::IsWord(names::RRT, names::MAN)),
        7 => may(Shape::IsWord(names::PROFILO_MEMORIZZATO, names::POTENZA_REATTIVA)),
        8 => may(Shape::IsVoltage),
        9 => may(Shape::IsRegulator),
        10 => may(Shape::IsChange),
        11 => may(Shape::IsReactive),
        12 => may(Shape::IsNote),
        13 => must(Shape::IsWhen),
        _ => may(Shape::IsNote),
    }
}

// 2.10, RI.
fn ri_kind(k: usize) -> Kind
    ensures { result ≡ kind_at Layout.Rejection k }
{
    match k {
        1 => must(Shape::IsId(MessageType::Ri)),
        2 => must(Shape::IsUnit),
        3 => must(Shape::IsWhen),
        4 => must(Shape::IsWhen),
        5 => may(Shape::IsReason),
        6 => may(Shape::IsNote),
        _ => may(Shape::IsNote),
    }
}

// 2.11, QR.
fn qr_kind(k: usize) -> Kind
    ensures { result ≡ kind_at Layout.Reserve k }
{
    match k {
        1 => must(Shape::IsId(MessageType::Qr)),
        2 => must(Shape::IsUnit),
        3 => must(Shape::IsWhen),
        4 => must(Shape::IsWhen),
        5 => must(Shape::IsWord(names::RISERVA_A_SCENDERE, names::RISERVA_A_SALIRE)),
        6 => may(Shape::IsAmount),
        7 => may(Shape::IsWord(names::FINO_A_PMIN, names::FINO_A_PMAX)),
        8 => may(Shape::IsNote),
        9 => must(Shape::IsWhen),
        _ => may(Shape::IsNote),
    }
}

// The kind of the field k, from 1.
pub fn of_field(l: Layout, k: usize) -> Kind
    ensures { result ≡ kind_at l k }
{
    match l {
        Layout::Market => market_kind(k),
        Layout::Mfrr => mfrr_kind(k),
        Layout::Revocation => rc_kind(k),
        Layout::Generic => mg_kind(k),
        Layout::Exclusion => eb_kind(k),
        Layout::Limitation => lb_kind(k),
        Layout::Secondary => sr_kind(k),
        Layout::VoltVar => vq_kind(k),
        Layout::Rejection => ri_kind(k),
        Layout::Reserve => qr_kind(k),
    }
}
