// Texts in their rooms.
ghost use Rattle.value_fits.specs.Fits.{is_kept, is_named};
ghost use Rattle.text.specs.Bytes.{all, is_plain, tidy};
ghost use Rattle.std.specs.Prelude.{◌≡◌};

use text::scan;
use value_name::unit;

fn all_plain(s: &[u8]) -> bool
    ensures { result ≡ all is_plain s.now }
{
    s.iter().all(|b| (32 <= *b) & (*b <= 126))
}

fn is_tidy(s: &[u8]) -> bool
    ensures { result ≡ tidy s.now }
{
    all_plain(s) & scan::same(scan::trim(s), s)
}

// n bytes of a room that hold a text of at most `most`.
pub fn is_kept(room: &[u8], most: usize, n: usize) -> bool
    ensures { result ≡ is_kept most room.now n }
{
    (1 <= n) & (n <= most) & (n <= room.len()) & is_tidy(scan::front(room, n))
}

// n bytes of a room that hold a unit's code.
pub fn is_unit(room: &[u8], n: usize) -> bool
    ensures { result ≡ is_named room.now n }
{
    (n <= room.len()) & unit::is_unit(scan::front(room, n))
}
