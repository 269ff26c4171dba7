// The banners, byte for byte as Annex A.34 prints them. The writer puts them; the reader never asks for them.
#![tactic(auto)]

ghost use Rattle.std.specs.Prelude.{◌+◌, ◌≤◌, ◌<◌, length, take, ◌≡◌};
ghost use Rattle.layout.specs.Banners.{banner_of};
ghost use Rattle.text.specs.Puts.{limit, Puts};
ghost use Rattle.std.proofs.lemmas.List.Edits.{sets};

use layout::Layout;
use text::put;

const MARKET: [u8; 88] =
    *b"*****\n***** MESSAGGIO DI COMANDO *****\n***** PER UPA/UCA *****\n*****\n                   ";

const MFRR: [u8; 88] =
    *b"*****\n***** MESSAGGIO DI COMANDO MFRR*****\n***** PER UPA/UCA *****\n*****\n               ";

const REVOCATION: [u8; 88] =
    *b"*****\n***** MESSAGGIO DI REVOCA COMANDO *****\n*****\n                                    ";

const GENERIC: [u8; 88] =
    *b"*****\n***** MESSAGGIO GENERICO *****\n*****\n                                             ";

const EXCLUSION: [u8; 88] =
    *b"*****\n***** MESSAGGIO DI ESCLUSIONE *****\n***** DAL BILANCIAMENTO *****\n*****\n          ";

const LIMITATION: [u8; 88] =
    *b"*****\n***** MESSAGGIO DI LIMITAZIONE *****\n***** AL BILANCIAMENTO *****\n*****\n          ";

const SECONDARY: [u8; 88] =
    *b"*****\n***** MESSAGGIO PER IL SERVIZIO *****\n***** DI REGOLAZIONE SECONDARIA *****\n*****\n";

const VOLT_VAR: [u8; 88] =
    *b"*****\n***** MESSAGGIO DI REGOLAZIONE V-Q *****\n*****\n                                   ";

const REJECTION: [u8; 88] =
    *b"*****\n*** MESSAGGIO DI RIFIUTO DELL'INDISPONIBILITA ***\n*****\n                          ";

const RESERVE: [u8; 88] =
    *b"*****\n***** MESSAGGIO DI QUANTITA *****\n***** RISERVATA *****\n*****\n                    ";

// A banner, the first `size` bytes of a padded one, put at a place. It goes by value: a text that an arm lends would be stored before the match, and so all
// ten for each message.
fn shown(out: &mut [u8], at: usize, size: usize, text: [u8; 88]) -> usize
    requires { (size ≤ 88) × (at + size < limit) }
    ensures { (result ≡ at + size) × (out.new ≡ sets out.old at (take size text)) }
{
    put::put_text(out, at, &text[0..size])
}

// The banner of a layout, put at a place.
pub fn put(out: &mut [u8], at: usize, l: Layout) -> usize
    requires { at + length (banner_of l) < limit }
    ensures { Puts out.old at (banner_of l) result out.new }
{
    match l {
        Layout::Market => shown(out, at, 69, MARKET),
        Layout::Mfrr => shown(out, at, 73, MFRR),
        Layout::Revocation => shown(out, at, 52, REVOCATION),
        Layout::Generic => shown(out, at, 43, GENERIC),
        Layout::Exclusion => shown(out, at, 78, EXCLUSION),
        Layout::Limitation => shown(out, at, 78, LIMITATION),
        Layout::Secondary => shown(out, at, 88, SECONDARY),
        Layout::VoltVar => shown(out, at, 53, VOLT_VAR),
        Layout::Rejection => shown(out, at, 62, REJECTION),
        Layout::Reserve => shown(out, at, 68, RESERVE),
    }
}
