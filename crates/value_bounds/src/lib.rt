// How far values go, by name: once in code, and once in specs/.
#![tactic(auto)]

ghost use Rattle.value_bounds.specs.Bounds.{is_instant, is_amount};
ghost use Rattle.std.specs.Prelude.{◌≡◌};

// The instants of the first date and of the last: 01-01-2001 00:00:00 L and 31-12-2099 23:59:59 S.
pub const FIRST_INSTANT: u32 = 31615200;

pub const LAST_INSTANT: u32 = 3155756399;

// The greatest number of a message or a command: ten digits.
pub const MOST_NUMBER: u64 = 9999999999;

// The greatest amount and the least: six digits before the point and three after it, in thousandths.
pub const MOST_AMOUNT: i32 = 999999999;

const LEAST_AMOUNT: i32 = -MOST_AMOUNT;

// Whether some date gives the instant.
pub fn is_instant(t: u32) -> bool
    ensures { result ≡ is_instant t }
{
    (FIRST_INSTANT <= t) & (t <= LAST_INSTANT)
}

// Whether the amount can be written.
pub fn is_amount(v: i32) -> bool
    ensures { result ≡ is_amount v }
{
    (LEAST_AMOUNT <= v) & (v <= MOST_AMOUNT)
}
