// The number form: numbers as values, and values read as indices.

#![tactic(auto)]

ghost use Rattle.std.specs.Prelude.{◌≡◌, ◌≤◌};
// `Decoding.f` is the f of crates/definition/specs/Decoding.antt.
ghost use Rattle.definition.specs.Decoding as Decoding;
ghost use Rattle.definition.specs.Decoding.{plus, serialize, last, deserialize, index_read, index_of};
ghost use Rattle.definition.specs.Stacks.{readable};
ghost use Rattle.definition.specs.Walk.{known, bytes_known, marking};
ghost use Rattle.decode.specs.View.{low_bytes, item_of, value_of};
ghost use Rattle.number_form.specs.View.{read_of, indexed, index_refusal};

use decode::Value;
use refusals::Refusal;

/// Why a value is no index.
#[derive(Clone, Copy, Debug, PartialEq, Eq)]
pub enum NoIndex {
    Unknown,
    NoNumber,
    Negative,
}

impl From<NoIndex> for Refusal {
    ghost from_gives = { λ why refusal. refusal ≡ index_refusal why };

    fn from(why: NoIndex) -> Refusal {
        match why {
            NoIndex::Unknown => Refusal::BadIndex,
            NoIndex::NoNumber => Refusal::CrookedNumber,
            NoIndex::Negative => Refusal::NegativeIndex,
        }
    }
}

// The last of `len` bytes.
fn last_byte(len: u8, bytes: u64) -> u64
    requires { (1 ≤ len) × (len ≤ 8) }
    ensures { result ≡ last (low_bytes len bytes) }
{
    (bytes >> ((u64::from(len) - 1) * 8)) % 256
}

// Whether the last byte is neither 00 nor 80, or the byte before it has its top bit set.
fn minimal(len: u8, bytes: u64) -> bool
    requires { (1 ≤ len) × (len ≤ 8) }
    ensures { result ≡ Decoding.minimal (low_bytes len bytes) }
{
    last_byte(len, bytes) % 128 != 0 || len > 1 && last_byte(len - 1, bytes) >= 128
}

// `len` bytes in number form, read as an index.
fn number_index(len: u8, bytes: u64) -> Result<u64, NoIndex>
    ensures { result ≡ indexed (index_read (deserialize (low_bytes len bytes))) }
{
    if len == 0 {
        return Ok(0);
    }
    if len > 8 || !minimal(len, bytes) {
        return Err(NoIndex::NoNumber);
    }
    if last_byte(len, bytes) >= 128 {
        return Err(NoIndex::Negative);
    }
    // the last byte is below 80: 8 * len - 1 bits hold the number
    Ok(bytes % (1 << (u64::from(len) * 8 - 1)))
}

/// A value read as an index.
pub fn read_index(v: Value) -> Result<u64, NoIndex>
    ensures reads { read_of result ≡ readable marking (index_of (bytes_known (item_of v))) }
    ensures same { result ≡ indexed (index_of (bytes_known (item_of v))) }
{
    match v {
        Value::Unknown => Err(NoIndex::Unknown),
        Value::Exact { len, bytes } => number_index(len, bytes),
    }
}

/// A height or a length as a value, in number form.
pub fn number_value(n: u64) -> Value
    ensures { result ≡ value_of (known (serialize (plus n))) }
{
    let len = match n {
        0 => 0,
        ..0x80 => 1,
        ..0x8000 => 2,
        ..0x800000 => 3,
        ..0x80000000 => 4,
        ..0x8000000000 => 5,
        ..0x800000000000 => 6,
        ..0x80000000000000 => 7,
        ..0x8000000000000000 => 8,
        _ => return Value::Unknown,
    };
    Value::Exact { len, bytes: n }
}
