// The labels of the layouts. One table serves the reader and the writer.
#![tactic(auto)]

ghost use Rattle.std.specs.Prelude.{◌+◌, ◌≤◌, ◌<◌, length, [], ◌≡◌};
ghost use Rattle.layout_label.specs.Labels.{words_of, label_of, label_text};
ghost use Rattle.layout.specs.Layouts.{label_at};
ghost use Rattle.text.specs.Bytes.{bytes, starts};
ghost use Rattle.text.specs.Puts.{limit};
ghost use Rattle.std.proofs.lemmas.List.Edits.{sets};

use layout::Layout;
use text::{put, words};

// A label padded to 36 bytes, as words of eight bytes, the first byte of each the lowest, and a last one of four; and how long it is without its blanks.
// Words are compared and put at once; a text of 36 bytes would be stored by one function and read by another in pieces that overlap, which is slow.
#[derive(Clone, Copy)]
pub struct Label {
    pub size: usize,
    pub first: u64,
    pub second: u64,
    pub third: u64,
    pub fourth: u64,
    pub last: u32,
}

fn labelled(size: usize, text: [u8; 36]) -> Label
    ensures { result ≡ words_of size text }
{
    Label {
        size,
        first: words::eight(&text, 0),
        second: words::eight(&text, 8),
        third: words::eight(&text, 16),
        fourth: words::eight(&text, 24),
        last: words::four(&text, 32),
    }
}

fn no_label() -> Label
    ensures { result ≡ label_of [] }
{
    labelled(0, *b"                                    ")
}

fn identifier() -> Label
    ensures { result ≡ label_of (bytes "Identificatore messaggio") }
{
    labelled(24, *b"Identificatore messaggio            ")
}

fn unit() -> Label
    ensures { result ≡ label_of (bytes "Nome UPA/UCA") }
{
    labelled(12, *b"Nome UPA/UCA                        ")
}

fn start() -> Label
    ensures { result ≡ label_of (bytes "Data Ora Inizio") }
{
    labelled(15, *b"Data Ora Inizio                     ")
}

fn end() -> Label
    ensures { result ≡ label_of (bytes "Data Ora Fine") }
{
    labelled(13, *b"Data Ora Fine                       ")
}

fn reason() -> Label
    ensures { result ≡ label_of (bytes "Motivazione") }
{
    labelled(11, *b"Motivazione                         ")
}

fn note() -> Label
    ensures { result ≡ label_of (bytes "Note") }
{
    labelled(4, *b"Note                                ")
}

fn created() -> Label
    ensures { result ≡ label_of (bytes "Data Creazione Msg") }
{
    labelled(18, *b"Data Creazione Msg                  ")
}

// 2.3.1, fields 1 to 6 of the market layout: what is ordered, and when.
fn order_label(k: usize) -> Label
    requires { (1 ≤ k) × (k ≤ 6) }
    ensures { result ≡ label_of (label_at Layout.Market k) }
{
    match k {
        1 => identifier(),
        2 => unit(),
        3 => labelled(23, *b"Data Ora Inizio Comando             "),
        4 => labelled(21, *b"Data Ora Fine Comando               "),
        5 => labelled(35, *b"Variazione potenza Prog Vinc (TINI) "),
        _ => labelled(35, *b"Variazione potenza Prog Vinc (TFIN) "),
    }
}

// Fields 7 to 12: how it is followed.
fn manner_label(k: usize) -> Label
    requires { (7 ≤ k) × (k ≤ 12) }
    ensures { result ≡ label_of (label_at Layout.Market k) }
{
    match k {
        7 => labelled(23, *b"Stato Gradiente Comando             "),
        8 => labelled(27, *b"Stato Continuazione Comando         "),
        9 => labelled(22, *b"Richiesta SuperMassimo              "),
        10 => labelled(27, *b"PV(Data ora Inizio Comando)         "),
        11 => labelled(25, *b"PV(Data ora Fine Comando)           "),
        _ => labelled(18, *b"Ordine di Raccordo                  "),
    }
}

// Fields 13 to 19: times and technical data.
fn technical_label(k: usize) -> Label
    requires { (13 ≤ k) × (k ≤ 19) }
    ensures { result ≡ label_of (label_at Layout.Market k) }
{
    match k {
        13 => labelled(19, *b"Tempo di avviamento                 "),
        14 => labelled(14, *b"Tempo di rampa                      "),
        15 => labelled(15, *b"PV finale(TINI)                     "),
        16 => labelled(15, *b"PV finale(TFIN)                     "),
        17 => labelled(32, *b"Data Ora Riferimento Dati (Trif)    "),
        18 => labelled(27, *b"Origine Dati Tecnici a Trif         "),
        _ => labelled(34, *b"Data Ora Aggiornamento Dati a Trif  "),
    }
}

// Fields 20 to 25: the profile's lines h1 to h6.
fn profile_label(k: usize) -> Label
    requires { (20 ≤ k) × (k ≤ 25) }
    ensures { result ≡ label_of (label_at Layout.Market k) }
{
    match k {
        20 => labelled(32, *b"Profilo normalizzato di rampa h1    "),
        21 => labelled(32, *b"Profilo normalizzato di rampa h2    "),
        22 => labelled(32, *b"Profilo normalizzato di rampa h3    "),
        23 => labelled(32, *b"Profilo normalizzato di rampa h4    "),
        24 => labelled(32, *b"Profilo normalizzato di rampa h5    "),
        _ => labelled(32, *b"Profilo normalizzato di rampa h6    "),
    }
}

// 2.3.1, the market layout.
fn market_label(k: usize) -> Label
    ensures { result ≡ label_of (label_at Layout.Market k) }
{
    match k {
        1..=6 => order_label(k),
        7..=12 => manner_label(k),
        13..=19 => technical_label(k),
        20..=25 => profile_label(k),
        26 => labelled(26, *b"Gradienti (Pmin,Pmax,Grad)          "),
        _ => no_label(),
    }
}

// 2.3.2, fields 1 to 6 of the mFRR layout: its instants.
fn ramp_label(k: usize) -> Label
    requires { (1 ≤ k) × (k ≤ 6) }
    ensures { result ≡ label_of (label_at Layout.Mfrr k) }
{
    match k {
        1 => identifier(),
        2 => unit(),
        3 => labelled(28, *b"Data Ora Inizio Rampa1 TINI1        "),
        4 => labelled(26, *b"Data Ora Fine Rampa1 TFIN1          "),
        5 => labelled(28, *b"Data Ora Inizio Rampa2 TINI2        "),
        _ => labelled(26, *b"Data Ora Fine Rampa2 TFIN2          "),
    }
}

// Fields 7 to 12: its powers.
fn power_label(k: usize) -> Label
    requires { (7 ≤ k) × (k ≤ 12) }
    ensures { result ≡ label_of (label_at Layout.Mfrr k) }
{
    match k {
        7 => labelled(27, *b"Variazione potenza al TFIN1         "),
        8 => labelled(12, *b"Tipo Comando                        "),
        9 => labelled(15, *b"Prifbil (TINI1)                     "),
        10 => labelled(15, *b"Prifbil (TFIN1)                     "),
        11 => labelled(15, *b"Prifbil (TINI2)                     "),
        _ => labelled(15, *b"Prifbil (TFIN2)                     "),
    }
}

// 2.3.2, the mFRR layout.
fn mfrr_label(k: usize) -> Label
    ensures { result ≡ label_of (label_at Layout.Mfrr k) }
{
    match k {
        1..=6 => ramp_label(k),
        7..=12 => power_label(k),
        _ => no_label(),
    }
}

// 2.4, RC.
fn rc_label(k: usize) -> Label
    ensures { result ≡ label_of (label_at Layout.Revocation k) }
{
    match k {
        1 => identifier(),
        2 => unit(),
        3 => labelled(30, *b"Data Ora Inizio Revoca Comando      "),
        4 => labelled(28, *b"Data Ora Fine Revoca Comando        "),
        5 => labelled(16, *b"Sequenza Comando                    "),
        _ => no_label(),
    }
}

// 2.10, RI. The layouts below have its first four fields, MG and EB all of them.
fn ri_label(k: usize) -> Label
    ensures { result ≡ label_of (label_at Layout.Rejection k) }
{
    match k {
        1 => identifier(),
        2 => unit(),
        3 => start(),
        4 => end(),
        5 => reason(),
        6 => note(),
        _ => no_label(),
    }
}

// 2.5, MG.
fn mg_label(k: usize) -> Label
    ensures { result ≡ label_of (label_at Layout.Generic k) }
{
    match k {
        7 => created(),
        _ => ri_label(k),
    }
}

// 2.6, EB.
fn eb_label(k: usize) -> Label
    ensures { result ≡ label_of (label_at Layout.Exclusion k) }
{
    match k {
        7 => labelled(12, *b"Riammissione                        "),
        8 => created(),
        _ => ri_label(k),
    }
}

// 2.7, LB.
fn lb_label(k: usize) -> Label
    ensures { result ≡ label_of (label_at Layout.Limitation k) }
{
    match k {
        1..=4 => ri_label(k),
        5 => labelled(22, *b"Limite Potenza massima              "),
        6 => labelled(21, *b"Limite Potenza Minima               "),
        7 => reason(),
        8 => note(),
        9 => labelled(9, *b"Reintegro                           "),
        10 => created(),
        _ => no_label(),
    }
}

// 2.8, SR.
fn sr_label(k: usize) -> Label
    ensures { result ≡ label_of (label_at Layout.Secondary k) }
{
    match k {
        1..=4 => ri_label(k),
        5 => labelled(15, *b"Tipo Operazione                     "),
        6 => labelled(9, *b"Semibande                           "),
        7 => reason(),
        8 => note(),
        9 => created(),
        _ => no_label(),
    }
}

// 2.9, fields 5 to 11 of VQ: states and settings.
fn setting_label(k: usize) -> Label
    requires { (5 ≤ k) × (k ≤ 11) }
    ensures { result ≡ label_of (label_at Layout.VoltVar k) }
{
    match k {
        5 => labelled(17, *b"Stato Sart/Report                   "),
        6 => labelled(22, *b"Modalita funzionamento              "),
        7 => labelled(11, *b"Regolazione                         "),
        8 => labelled(24, *b"Impostazione Sart/Report            "),
        9 => labelled(16, *b"Impostazione RAT                    "),
        10 => labelled(10, *b"Variazione                          "),
        _ => labelled(16, *b"Potenza reattiva                    "),
    }
}

// 2.9, VQ.
fn vq_label(k: usize) -> Label
    ensures { result ≡ label_of (label_at Layout.VoltVar k) }
{
    match k {
        1..=4 => ri_label(k),
        5..=11 => setting_label(k),
        12 => note(),
        13 => created(),
        _ => no_label(),
    }
}

// 2.11, QR.
fn qr_label(k: usize) -> Label
    ensures { result ≡ label_of (label_at Layout.Reserve k) }
{
    match k {
        1..=4 => ri_label(k),
        5 => labelled(12, *b"Tipo Riserva                        "),
        6 => labelled(23, *b"Quantita Riservata (MW)             "),
        7 => labelled(18, *b"Quantita Riservata                  "),
        8 => note(),
        9 => created(),
        _ => no_label(),
    }
}

// The label of the field k, from 1: nothing where there is no such field.
pub fn of_field(l: Layout, k: usize) -> Label
    ensures { result ≡ label_of (label_at l k) }
{
    match l {
        Layout::Market => market_label(k),
        Layout::Mfrr => mfrr_label(k),
        Layout::Revocation => rc_label(k),
        Layout::Generic => mg_label(k),
        Layout::Exclusion => eb_label(k),
        Layout::Limitation => lb_label(k),
        Layout::Secondary => sr_label(k),
        Layout::VoltVar => vq_label(k),
        Layout::Rejection => ri_label(k),
        Layout::Reserve => qr_label(k),
    }
}

// A label, padded, put from i on.
pub fn put_label(out: &mut [u8], i: usize, l: Label)
    requires { i + 36 ≤ length out.old }
    ensures { out.new ≡ sets out.old i (label_text l) }
{
    words::put_word(out, i, l.first);
    words::put_word(out, i + 8, l.second);
    words::put_word(out, i + 16, l.third);
    words::put_word(out, i + 24, l.fourth);
    words::put_half(out, i + 32, l.last);
}

// A label, padded, put at a place, as far as there is room for it.
pub fn put(out: &mut [u8], at: usize, l: Label) -> usize
    requires { at + 36 < limit }
    ensures { (result ≡ at + 36) × (out.new ≡ sets out.old at (label_text l)) }
{
    if at + 36 <= out.len() {
        put_label(out, at, l);
        return at + 36;
    }
    let mut text = [0u8; 36];
    put_label(&mut text, 0, l);
    put::put_text(out, at, &text)
}

// Whether a text begins with the padded label.
pub fn is_printed(l: Label, s: &[u8]) -> bool
    ensures { result ≡ starts (label_text l) s.now }
{
    if s.len() < 36 {
        return false;
    }
    (words::eight(s, 0) == l.first)
        & (words::eight(s, 8) == l.second)
        & (words::eight(s, 16) == l.third)
        & (words::eight(s, 24) == l.fourth)
        & (words::four(s, 32) == l.last)
}
