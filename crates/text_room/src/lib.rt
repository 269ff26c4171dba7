// Texts kept in rooms of fixed size: the unused room is zero, and a text that is too long is not kept.
#![tactic(auto)]

ghost use Rattle.text_room.specs.Rooms.{kept_in};
ghost use Rattle.std.specs.Prelude.{◌≡◌};

use text::put;

// A text in a room of N bytes.
#[tactic(auto, using(crate::proofs::Kept::not_kept, crate::proofs::Kept::is_kept))]
pub fn keep<const N: usize>(s: &[u8]) -> [u8; N]
    ensures { result ≡ kept_in N s.now }
{
    let mut room = [0u8; N];
    if s.len() <= N {
        put::put_text(&mut room, 0, s);
    }
    room
}
