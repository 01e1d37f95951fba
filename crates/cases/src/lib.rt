// The fields of a case, read from a line by the protocol of compare/README.md: numbers in decimal, bytes in hex or in the
// repeat form. What is read lies within what was lent, whatever the line holds.

#![tactic(auto)]

ghost use Rattle.std.specs.Prelude.{◌≡◌, ◌<◌, ◌≤◌, length, IfSome, IfNone, Some, None};
ghost use Rattle.cases.specs.Decimals.{decimal, numbers_in};
ghost use Rattle.cases.specs.Digits.{hex_digit, octet_at};
ghost use Rattle.cases.specs.Ranges.{IsBehind};

/// A number, and what stands behind the space after it.
#[derive(Clone, Copy, Debug, PartialEq, Eq)]
pub struct Field<'a> {
    pub value: u32,
    pub rest: &'a [u8],
}

/// So many bytes at the start of the lent code, and what stands behind them and a space.
#[derive(Clone, Copy, Debug, PartialEq, Eq)]
pub struct Part<'a> {
    pub count: usize,
    pub rest: &'a [u8],
}

// The number that digits write, below 2^32.
fn value_of(digits: &[u8]) -> Option<u32>
    ensures { 0 < length digits.now → result ≡ decimal digits.now }
{
    let mut value: u64 = 0;
    for &b in digits {
        value = 10 * value + u64::from(char::from(b).to_digit(10)?);
        if value > u64::from(u32::MAX) {
            return None;
        }
    }
    Some(value as u32)
}

/// A decimal number: one digit or more, below 2^32, and nothing else.
pub fn number(text: &[u8]) -> Option<u32>
    ensures { result ≡ decimal text.now }
{
    if text.is_empty() {
        return None;
    }
    value_of(text)
}

// What stands before the first space, and behind it.
fn word(line: &[u8]) -> Option<(&[u8], &[u8])>
    ensures { IfSome result (λ parts. IsBehind line.now parts.1.now) }
{
    let at = line.iter().position(|&b| b == b' ')?;
    Some((&line[..at], &line[at + 1..]))
}

/// A number and the space after it.
pub fn height(line: &[u8]) -> Option<Field<'_>>
    ensures { IfSome result (λ field. IsBehind line.now field.rest.now) }
{
    let (text, rest) = word(line)?;
    Some(Field {
        value: number(text)?,
        rest,
    })
}

// A digit of a hexadecimal number, in lower case.
#[tactic(auto, unfolding(crate::specs::Digits::hex_digit, crate::specs::Digits::decimal_digit))]
fn hex_digit(b: u8) -> Option<u8>
    ensures same { result ≡ hex_digit b }
    ensures below { IfSome result (λ value. value < 16) }
{
    match b {
        b'0'..=b'9' => Some(b - b'0'),
        b'a'..=b'f' => Some(b - b'a' + 10),
        _ => None,
    }
}

// The two hex digits of a pair.
#[tactic(auto, unfolding(crate::specs::Digits::octet_at))]
fn hex_pair(pair: &[u8]) -> Option<u8>
    requires { length pair.now ≤ 2 }
    ensures { result ≡ octet_at pair.now 0 }
{
    let [high, low] = *pair else {
        return None;
    };
    Some(16 * hex_digit(high)? + hex_digit(low)?)
}

// The bytes in hex. None where code has no room for them.
fn hex_bytes(hex: &[u8], code: &mut [u8]) -> Option<usize>
    ensures { IfSome result (λ count. count ≤ length code.new) }
{
    let mut count = 0;
    for pair in hex.chunks(2) {
        *code.get_mut(count)? = hex_pair(pair)?;
        count += 1;
    }
    Some(count)
}

/// BYTES: `-` for none, or hex, one byte at least, with or without the repeat form, by which a number says how often the last
/// byte stands.
pub fn bytes(text: &[u8], code: &mut [u8]) -> Option<usize>
    ensures { IfSome result (λ count. count ≤ length code.new) }
{
    if matches!(text, [b'-']) {
        return Some(0);
    }
    let (hex, times) = match text.iter().position(|&b| b == b'*') {
        Some(at) => (&text[..at], number(&text[at + 1..])?),
        None => (text, 1),
    };
    let count = hex_bytes(hex, code)?;
    let last = *code[..count].last()?;
    let more = times.checked_sub(1)? as usize;
    code.get_mut(count..count + more)?.fill(last);
    Some(count + more)
}

/// BYTES, and the space after them.
pub fn next_part<'a>(line: &'a [u8], code: &mut [u8]) -> Option<Part<'a>>
    ensures count { IfSome result (λ part. part.count ≤ length code.new) }
    ensures rest { IfSome result (λ part. IsBehind line.now part.rest.now) }
{
    let (text, rest) = word(line)?;
    Some(Part {
        count: bytes(text, code)?,
        rest,
    })
}

// The numbers to the end of the line, parted by spaces, if they are as many as values.
fn read_numbers(line: &[u8], values: &mut [u32]) -> Option<()>
    ensures some { IfSome result (λ u. numbers_in (length values.new) line.now ≡ Some values.new) }
    ensures none { IfNone result (numbers_in (length values.new) line.now ≡ None) }
{
    let mut texts = line.split(|&b| b == b' ');
    for value in &mut *values {
        *value = number(texts.next()?)?;
    }
    texts.next().is_none().then_some(())
}

/// The numbers to the end of the line, parted by spaces, if they are so many.
pub fn numbers<const N: usize>(line: &[u8]) -> Option<[u32; N]>
    ensures { result ≡ numbers_in N line.now }
{
    let mut values = [0; N];
    read_numbers(line, &mut values)?;
    Some(values)
}
