// The keys of lines, each with its `=`. One table serves the reader and the writer.
ghost use Rattle.saved_lines.specs.Values.{key_text, key_room};
ghost use Rattle.std.specs.Prelude.{◌≡◌};

use crate::Key;

// A key stands in the first bytes of its room.
#[derive(Clone, Copy)]
pub struct KeyText {
    pub size: usize,
    pub room: [u8; 8],
}

fn keyed(size: usize, room: [u8; 8]) -> KeyText
    ensures { result ≡ record { size = size; room = room } }
{
    KeyText { size, room }
}

pub fn key_of(k: Key) -> KeyText
    ensures { result ≡ key_room (key_text k) }
{
    match k {
        Key::Form => keyed(5, *b"form=\0\0\0"),
        Key::Floor => keyed(6, *b"floor=\0\0"),
        Key::Count => keyed(6, *b"count=\0\0"),
        Key::Number => keyed(7, *b"number=\0"),
        Key::Kind => keyed(5, *b"kind=\0\0\0"),
        Key::Start => keyed(6, *b"start=\0\0"),
        Key::End => keyed(4, *b"end=\0\0\0\0"),
        Key::Var1 => keyed(5, *b"var1=\0\0\0"),
        Key::Var2 => keyed(5, *b"var2=\0\0\0"),
        Key::Struck => keyed(7, *b"struck=\0"),
    }
}
