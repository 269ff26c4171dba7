// A unit's code: 1 to 16 letters, digits or '_'.
ghost use Rattle.value_name.specs.Names.{is_unit_byte, is_unit};
ghost use Rattle.std.specs.Prelude.{◌≡◌};
ghost use Rattle.text.specs.Bytes.{run_of};

use text::digits::is_digit;
use text::scan;
use text::scan::ByteTest;

// Whether a byte can stand in a code. Its tests are joined by `|`, so there is no branch between the bytes that are tested together.
#[derive(Clone, Copy)]
struct UnitByte;

impl ByteTest for UnitByte {
    ghost passes = { λ t. is_unit_byte };

    fn passes(&self, b: u8) -> bool {
        is_digit(b) | matches!(b, b'A'..=b'Z') | (b == b'_') | matches!(b, b'a'..=b'z')
    }
}

// How many bytes of a code it begins with.
pub fn run(s: &[u8]) -> usize
    ensures { result ≡ run_of is_unit_byte s.now }
{
    scan::run(s, &UnitByte)
}

#[tactic(auto, using(text::proofs::Fronts::run_all), unfolding(crate::specs::Names::is_unit))]
pub fn is_unit(s: &[u8]) -> bool
    ensures { result ≡ is_unit s.now }
{
    let n = s.len();
    (1..=16).contains(&n) && run(s) == n
}
