// The number of the command that a revocation is about, without leading zeros.
ghost use Rattle.value_name.specs.Names.{sequence_of};
ghost use Rattle.std.specs.Prelude.{◌≡◌};

use text::digits;

pub fn read(s: &[u8]) -> Option<u64>
    ensures { result ≡ sequence_of s.now }
{
    if s.len() < 2 {
        return digits::read_digits(s, 10);
    }
    if s[0] == b'0' {
        return None;
    }
    digits::read_digits(s, 10)
}
