// The address plan: which unit and type of message an address (CA, IOA) has. The type comes from here alone, never from the message.
#![tactic(auto)]

ghost use Rattle.std.specs.Prelude.{max, ◌≤◌, length, ◌≡◌};
ghost use Rattle.plan.specs.Kept.{found_in};
ghost use Rattle.plan.specs.Plans.{plan_of, sought_of, said_by};

use plan_row::Entry;
use refusal::Refusal;
use value_name::MessageType;

// What the plan has at an address: the type of its messages, and the unit's code in its room.
#[derive(Clone, Copy)]
pub struct Sought {
    pub message: MessageType,
    pub size: usize,
    pub unit: [u8; 16],
}

// What a row gives that has the address, with the unit's code out of the row's bytes.
fn found_in(s: &[u8], e: Entry) -> Sought
    requires { (e.from ≤ e.to) × (e.to ≤ length s.now) }
    ensures { result ≡ found_in s.now e }
{
    let from = e.from;
    let to = e.to;
    let u = &s[from..to];
    let unit = text_room::keep(u);
    let message = e.message;
    Sought {
        message,
        size: u.len(),
        unit,
    }
}

// The rows from the top, at most 64 of them, with the addresses above each and the greatest of those.
pub fn seek(plan: &[u8], ca: u32, ioa: u32) -> Result<Sought, Refusal>
    ensures { said_by result ≡ sought_of ca ioa (plan_of plan.now) }
{
    if plan.len() == 0 {
        return Err(Refusal::BadPlan(0));
    }
    let sought = plan_row::sought_key(ca, ioa);
    let mut keys = [0u64; 64];
    let mut count = 0;
    let mut greatest = 0;
    let mut found = Err(Refusal::UnknownAddress);
    let mut rest = plan;
    // A while: how much each turn takes off the rest is known only when its row is read.
    while 0 < rest.len() {
        let line = 4 * count + 1;
        if count == 64 {
            return Err(Refusal::BadPlan(line));
        }
        match plan_row::row_at(rest, &keys[0..count], greatest) {
            Err(k) => {
                return Err(Refusal::BadPlan(line + k as usize));
            }
            Ok(e) => {
                if e.key == sought {
                    found = Ok(found_in(rest, e));
                }
                keys[count] = e.key;
                greatest = greatest.max(e.key);
                count += 1;
                let end = e.end;
                let next = &rest[end..];
                rest = next;
            }
        }
    }
    found
}
