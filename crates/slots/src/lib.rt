// A slot of the stacks: a code and bytes, in two arrays of 244. A code of 0 to 8 is an exact item of so many bytes, which
// stand in `bytes` as one number, the first byte the lowest; 9 is an unknown item; 10 + v is the exact item of the one byte
// v, and such an item, v at most 245, is always written so.
// A code is a number and no enum: in one array of values a join takes ten times the instructions.

#![tactic(auto)]

ghost use Rattle.std.specs.Prelude.{◌≡◌, true, ℕ, ◌≤◌, ◌<◌, get_or};
ghost use Rattle.slots.specs.View.{slots, code_of, sufficient, Canon, Sound};
ghost use Rattle.slots.specs.Parts.{Each, common_code, CommonAt, settled_code, SettledAt, JoinedAt, InSlot, code_length};

use decode::Value;

/// The code of an unknown item.
pub const UNKNOWN: u8 = 9;

#[tactic(auto, unfolding(crate::specs::View::sufficient))]
/// Whether a code says its item by itself, whatever the bytes of the slot.
pub fn suffices(code: u8) -> bool
    ensures { result ≡ sufficient code }
{
    code == 0 || code >= UNKNOWN
}

#[tactic(auto, unfolding(crate::specs::View::code_of))]
/// The code of an exact item of so many bytes.
pub fn code_of(len: u8, bytes: u64) -> u8
    ensures { result ≡ code_of len bytes }
{
    if len == 1 && bytes <= 245 {
        10 + bytes as u8
    } else {
        len
    }
}

// What two slots have in common by their codes.
#[tactic(auto, unfolding(crate::specs::Parts::common_code))]
fn common(code: u8, other: u8) -> u8
    ensures { result ≡ common_code code other }
{
    if code == other { code } else { UNKNOWN }
}

// What is left of that by their bytes.
#[tactic(auto, unfolding(crate::specs::Parts::settled_code))]
fn settled(code: u8, bytes: u64, other: u64) -> u8
    ensures { result ≡ settled_code code bytes other }
{
    if suffices(code) || bytes == other {
        code
    } else {
        UNKNOWN
    }
}

/// The first half of a join of the slots from `from` up to `to`, by their codes: those that differ become unknown. Whether the codes
/// that are left say their items by themselves.
pub fn common_codes(codes: &mut [u8; 244], other: &[u8; 244], from: usize, to: usize) -> bool
    requires { (from ≤ to) × (to ≤ 244) }
    ensures common { Each (CommonAt codes.old other.now) codes.old from to codes.new }
    ensures suffice { result ≡ true → (j : ℕ) → from ≤ j → j < to → sufficient (get_or codes.new j 0) ≡ true }
{
    let mut suffice = true;
    for i in from..to {
        codes[i] = common(codes[i], other[i]);
        suffice &= suffices(codes[i]);
    }
    suffice
}

/// The second half, by their bytes.
pub fn settle_codes(
    codes: &mut [u8; 244],
    bytes: &[u64; 244],
    other: &[u64; 244],
    from: usize,
    to: usize,
)
    requires { (from ≤ to) × (to ≤ 244) }
    ensures { Each (SettledAt codes.old bytes.now other.now) codes.old from to codes.new }
{
    for i in from..to {
        codes[i] = settled(codes[i], bytes[i], other[i]);
    }
}

/// A join of the slots from `from` up to `to`: with its code each has what it and the other have in common. The bytes stay, and are
/// read only where a code that is left does not say its item.
pub fn join_codes(
    codes: &mut [u8; 244],
    bytes: &[u64; 244],
    other: &[u8; 244],
    other_bytes: &[u64; 244],
    from: usize,
    to: usize,
)
    requires sound { Sound (slots bytes.now codes.old) × Sound (slots other_bytes.now other.now) }
    requires range { (from ≤ to) × (to ≤ 244) }
    ensures { Each (JoinedAt (slots bytes.now codes.old) (slots other_bytes.now other.now)) codes.old from to codes.new }
{
    if !common_codes(codes, other, from, to) {
        settle_codes(codes, bytes, other_bytes, from, to);
    }
}

/// The value in a slot, by its code and, where that does not suffice, its bytes.
pub fn slot_value(code: u8, bytes: u64) -> Value
    requires { Canon code bytes }
    ensures { InSlot code bytes result }
{
    match code {
        0 => Value::Exact { len: 0, bytes: 0 },
        1..=8 => Value::Exact { len: code, bytes },
        UNKNOWN => Value::Unknown,
        _ => Value::Exact {
            len: 1,
            bytes: u64::from(code - 10),
        },
    }
}

#[tactic(auto, unfolding(crate::specs::Parts::code_length))]
/// The length of an exact item, by its code.
pub fn code_length(code: u8) -> u8
    ensures { result ≡ code_length code }
{
    if code <= 8 { code } else { 1 }
}
