// Decoding: what stands at an offset of a fragment.

#![tactic(auto)]

ghost use Rattle.std.specs.Prelude.{◌&&◌, ◌≡◌, ◌+◌, ◌-◌, ◌≤◌, ◌<◌, ltb, length, drop, get_or};
// `Decoding.f` is the f of crates/definition/specs/Decoding.antt.
ghost use Rattle.definition.specs.Decoding as Decoding;
ghost use Rattle.definition.specs.Decoding.{decode};
ghost use Rattle.definition_long_data.specs.Blank.{length_bytes};
ghost use Rattle.definition.specs.Refusals.{max_element};
ghost use Rattle.definition.specs.Walk.{known};
ghost use Rattle.refusals.specs.declared.Refusal.TheVariants as Refusal;
ghost use Rattle.decode.specs.View.{value_of, decoded_front, decoded_at, code_at, data_start, opcode_of, yield_of, yielded, counted_of, count_in};

use refusals::{Refusal, Refused};
use thiserror::Error;

/// What is known of an item: nothing, or its length and its bytes as one number, the first byte the lowest.
// It has names of its own, and is no `Option` of a pair: a form of the project.
#[derive(Clone, Copy, Debug, PartialEq, Eq)]
pub enum Value {
    Unknown,
    Exact { len: u8, bytes: u64 },
}

/// One instruction: its opcode, its offset, its literal as the marker knows it, and where the next one starts.
#[derive(Clone, Copy, Debug, PartialEq, Eq)]
pub struct Instruction {
    pub offset: usize,
    pub literal: Value,
    pub next: usize,
    pub opcode: u8,
}

/// The instruction at this offset is not whole: bytes of its length or of its data are missing.
#[derive(Clone, Copy, Debug, PartialEq, Eq, Error)]
#[error("the instruction at offset {offset} is not whole")]
pub struct Malformed {
    pub offset: usize,
}

impl From<Malformed> for Refused {
    ghost from_gives = { λ malformed refused. refused ≡ record { offset = malformed.offset; refusal = Refusal.Malformed } };

    fn from(malformed: Malformed) -> Refused {
        Refused {
            offset: malformed.offset,
            refusal: Refusal::Malformed,
        }
    }
}

// At most 8 bytes as one number, the first the lowest.
fn number(bytes: &[u8]) -> u64
    requires { length bytes.now ≤ 8 }
    ensures { result ≡ Decoding.number bytes.now }
{
    let mut number = 0;
    for &byte in bytes.iter().rev() {
        number = u64::from(byte) + number * 256;
    }
    number
}

// What the marker knows of these bytes: all of them, if they are at most 8.
fn known(bytes: &[u8]) -> Value
    ensures { result ≡ value_of (known bytes.now) }
{
    if bytes.len() > 8 {
        Value::Unknown
    } else {
        Value::Exact {
            len: bytes.len() as u8,
            bytes: number(bytes),
        }
    }
}

// The instruction with this opcode and `size` bytes of data from start on.
fn pushes(
    fragment: &[u8],
    opcode: u8,
    offset: usize,
    start: usize,
    size: usize,
) -> Result<Option<Instruction>, Malformed>
    requires { (offset < start) × (start ≤ length fragment.now) }
    ensures { result
        ≡ decoded_front
        (Decoding.pushes (start - (offset + 1)) size (drop start fragment.now))
        opcode
        offset }
{
    let Some(data) = fragment[start..].get(..size) else {
        return Err(Malformed { offset });
    };
    Ok(Some(Instruction {
        opcode,
        offset,
        literal: known(data),
        next: start + size,
    }))
}

// The instruction with this opcode, a length of n bytes behind it, and data of that length.
fn sized(
    fragment: &[u8],
    opcode: u8,
    offset: usize,
    n: usize,
) -> Result<Option<Instruction>, Malformed>
    requires { (n ≤ 4) × (offset < length fragment.now) }
    ensures { result ≡ decoded_front (Decoding.sized n (drop (offset + 1) fragment.now)) opcode offset }
{
    let start = offset + 1;
    let Some(size) = fragment[start..].get(..n) else {
        return Err(Malformed { offset });
    };
    pushes(fragment, opcode, offset, start + n, number(size) as usize)
}

// What an opcode that stands alone pushes.
fn alone(opcode: u8) -> Value
    ensures { result ≡ value_of (known (Decoding.alone opcode)) }
{
    match opcode {
        0x4f => Value::Exact {
            len: 1,
            bytes: 0x81,
        },
        0x51..=0x60 => Value::Exact {
            len: 1,
            bytes: u64::from(opcode - 0x50),
        },
        _ => Value::Exact { len: 0, bytes: 0 },
    }
}

// What stands at an offset whose opcode is followed by data or by a length, or is 00. It stays a function, so that `decode_at` is
// short.
#[inline(never)]
#[tactic(auto, using(crate::proofs::Fronts::fronts))]
fn pushing(fragment: &[u8], opcode: u8, offset: usize) -> Result<Option<Instruction>, Malformed>
    requires offset_in_bounds { offset < length fragment.now }
    requires opcode_value { (opcode ≡ get_or fragment.now offset 0) × (opcode ≤ 0x4e) }
    ensures { result ≡ decoded_at fragment.now offset }
{
    match opcode {
        0x4c => sized(fragment, opcode, offset, 1),
        0x4d => sized(fragment, opcode, offset, 2),
        0x4e => sized(fragment, opcode, offset, 4),
        _ => pushes(fragment, opcode, offset, offset + 1, usize::from(opcode)),
    }
}

/// What stands at an offset: an instruction, or none at the fragment's end. An opcode that stands alone is answered where the
/// function is called: as a call it takes half as many instructions again.
#[inline(always)]
#[tactic(auto, using(crate::proofs::Fronts::fronts, crate::proofs::Codes::decoding))]
pub fn decode_at(fragment: &[u8], offset: usize) -> Result<Option<Instruction>, Malformed>
    ensures yields { yield_of result ≡ yielded (code_at fragment.now offset) }
    ensures same { result ≡ decoded_at fragment.now offset }
{
    let Some(&opcode) = fragment.get(offset) else {
        return Ok(None);
    };
    if opcode <= 0x4e {
        return pushing(fragment, opcode, offset);
    }
    Ok(Some(Instruction {
        opcode,
        offset,
        literal: alone(opcode),
        next: offset + 1,
    }))
}

/// The opcode at an offset, and where the next instruction starts; none at the fragment's end. What is pushed is not looked at.
#[inline(always)]
#[tactic(auto, using(crate::proofs::Fronts::fronts, crate::proofs::Codes::decoding))]
pub fn opcode_at(fragment: &[u8], offset: usize) -> Result<Option<(u8, usize)>, Malformed>
    ensures { result ≡ opcode_of (decoded_at fragment.now offset) }
{
    let Some(&opcode) = fragment.get(offset) else {
        return Ok(None);
    };
    if opcode > 0x4e {
        return Ok(Some((opcode, offset + 1)));
    }
    match pushing(fragment, opcode, offset)? {
        Some(instruction) => Ok(Some((instruction.opcode, instruction.next))),
        None => Ok(None),
    }
}

/// How many bytes of length follow an opcode.
pub fn length_bytes(opcode: u8) -> usize
    ensures same { result ≡ length_bytes opcode }
    ensures short { result ≤ 4 }
{
    match opcode {
        0x4c => 1,
        0x4d => 2,
        0x4e => 4,
        _ => 0,
    }
}

/// How many bytes of data an instruction has, by where it stands and where the next one does: an instruction does not keep its
/// length.
pub fn data_size(fragment: &[u8], offset: usize, next: usize) -> usize
    requires { (offset < length fragment.now) × (data_start fragment.now offset ≤ next) }
    ensures { result ≡ next - data_start fragment.now offset }
{
    next - (offset + 1 + length_bytes(fragment[offset]))
}

/// Whether that is more than the examined mode takes of a literal.
pub fn too_long(fragment: &[u8], offset: usize, next: usize, examined: bool) -> bool
    requires { (offset < length fragment.now) × (data_start fragment.now offset ≤ next) }
    ensures { result ≡ (examined && ltb max_element (next - data_start fragment.now offset)) }
{
    examined && data_size(fragment, offset, next) > 520
}

/// How many instructions there are.
#[tactic(auto, using(crate::proofs::Codes::counted))]
pub fn count_instructions(fragment: &[u8]) -> Result<usize, Malformed>
    ensures { counted_of result ≡ count_in (decode fragment.now) }
{
    let mut offset = 0;
    let mut count = 0;
    // no `for`: where the next instruction starts is in the last one, and an iterator would have to keep that it has failed besides
    while let Some((_, next)) = opcode_at(fragment, offset)? {
        offset = next;
        count += 1;
    }
    Ok(count)
}
