// What a message names: its own identifier, its unit, and the command that a revocation is about.
#![tactic(auto)]

pub mod identifier;
pub mod sequence;
pub mod unit;

ghost use Rattle.value_name.specs.Types.{code_of};
ghost use Rattle.std.specs.Prelude.{◌≡◌};

// The types that an address can have. The type comes from the address plan, never from the message.
#[derive(Clone, Copy, PartialEq, Eq)]
pub enum MessageType {
    Cb,
    Rc,
    Mg,
    Eb,
    Lb,
    Sr,
    Vq,
    Ri,
    Qr,
}

// A type's code, as the plan, an identifier and a report have it.
pub fn code(t: MessageType) -> [u8; 2]
    ensures { result ≡ code_of t }
{
    match t {
        MessageType::Cb => *b"CB",
        MessageType::Rc => *b"RC",
        MessageType::Mg => *b"MG",
        MessageType::Eb => *b"EB",
        MessageType::Lb => *b"LB",
        MessageType::Sr => *b"SR",
        MessageType::Vq => *b"VQ",
        MessageType::Ri => *b"RI",
        MessageType::Qr => *b"QR",
    }
}
