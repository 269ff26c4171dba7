// A message's identifier: its type's code, '-', ten digits.
ghost use Rattle.std.specs.Prelude.{◌+◌, ◌<◌, ◌≡◌};
ghost use Rattle.value_name.specs.Names.{prefix_of, identifier_of, identifier_text};
ghost use Rattle.text.specs.Puts.{limit};
ghost use Rattle.std.proofs.lemmas.List.Edits.{sets};

use crate::MessageType;
use text::{digits, put, scan};

// A type's code with its '-'.
fn prefix(t: MessageType) -> [u8; 3]
    ensures { result ≡ prefix_of t }
{
    let code = crate::code(t);
    [code[0], code[1], b'-']
}

pub fn read(t: MessageType, s: &[u8]) -> Option<u64>
    ensures { result ≡ identifier_of t s.now }
{
    if s.len() != 13 {
        return None;
    }
    let code = prefix(t);
    if !scan::same(&s[..3], &code) {
        return None;
    }
    digits::read_digits(&s[3..], 10)
}

// The identifier with the last ten digits of n, 13 bytes.
pub fn put(out: &mut [u8], at: usize, t: MessageType, n: u64) -> usize
    requires { at + 13 < limit }
    ensures { (result ≡ at + 13) × (out.new ≡ sets out.old at (identifier_text t n)) }
{
    let code = prefix(t);
    let from = put::put_text(out, at, &code);
    put::put_digits(out, from, 10, n)
}
