// The lister: a fragment into the words of a listing. The output is lent and of any size, and keeps what lies behind the listing.

#![tactic(auto)]

ghost use Rattle.std.specs.Prelude.{◌≡◌, ◌+◌, ◌-◌, ◌*◌, ◌^◌, ◌≤◌, ◌<◌, eqb, length, take, drop, IfOk};
ghost use Rattle.assembling.specs.View.{converted_of};
ghost use Rattle.decode.specs.View.{data_start};
ghost use Rattle.definition.specs.Classes.{class_number};
ghost use Rattle.definition.specs.Decoding.{decode, malformed_at};
ghost use Rattle.definition_listings.specs.Listing.{hex_bytes, data_word, code_word, listed};
ghost use Rattle.definition_listings.specs.OpcodeNames.{name_of};
ghost use Rattle.listing.specs.View.{length_bytes, Stands, word_at, listing_of, whole_or_malformed, Measures};
ghost use Rattle.text.specs.View.{Puts};

use decode::{Instruction, Malformed};
use names::Names;
use opcodes::Class;
use refusals::{Refusal, Refused};
use text::{Lent, hex_digit};

/// How many bytes of length follow an opcode up to 4e.
#[tactic(auto, unfolding(crate::specs::View::length_bytes))]
pub fn length_bytes(opcode: u8) -> usize
    ensures same { result ≡ length_bytes opcode }
    ensures short { result ≤ 4 }
{
    match opcode {
        0..=0x4b => 0,
        0x4c => 1,
        0x4d => 2,
        _ => 4,
    }
}

/// The data of a push, which ends where the next instruction stands.
pub fn data<'a>(fragment: &'a [u8], offset: usize, next: usize) -> &'a [u8]
    requires within { (offset < next) × (next ≤ length fragment.now) }
    requires push { data_start fragment.now offset ≤ next }
    ensures { result.now
        ≡ take
        (next - data_start fragment.now offset)
        (drop (data_start fragment.now offset) fragment.now) }
{
    let size = decode::data_size(fragment, offset, next);
    &fragment[next - size..next]
}

// Writes bytes in hexadecimal. Each digit is made by arithmetic: the compiler makes several at once, where a table is read digit by
// digit.
fn write_hex_bytes(place: &mut [u8], bytes: &[u8])
    requires { length place.old ≡ 2 * length bytes.now }
    ensures { place.new ≡ hex_bytes bytes.now }
{
    for j in 0..bytes.len() {
        place[2 * j] = hex_digit(bytes[j] / 16);
        place[2 * j + 1] = hex_digit(bytes[j] % 16);
    }
}

/// Puts bytes in hexadecimal.
pub fn put_hex_bytes(text: &mut Lent, bytes: &[u8])
    ensures { Puts text.old (hex_bytes bytes.now) text.new }
{
    text.fill(
        2 * bytes.len(),
        |place|
            requires { length place.now ≡ 2 * length bytes.now }
        {
            write_hex_bytes(place, bytes);
        },
    );
}

/// Puts a word of data.
pub fn put_data_word(text: &mut Lent, bytes: &[u8])
    ensures { Puts text.old (data_word bytes.now) text.new }
{
    if bytes.is_empty() {
        text.put(b"Op0");
        return;
    }
    text.put(b"<");
    put_hex_bytes(text, bytes);
    text.put(b">");
}

// Whether a code is unmodelled. One with a name is not: its class is not told.
fn is_unmodelled(opcode: u8, name: &[u8]) -> bool
    requires { name.now ≡ name_of opcode }
    ensures { result ≡ eqb (class_number opcode) 0 }
{
    name.is_empty() && opcodes::class_of(opcode) == Class::Unmodelled
}

/// Puts the word of a code that is no data push.
pub fn put_code_word(text: &mut Lent, opcode: u8, names: &Names)
    ensures { Puts text.old (code_word opcode) text.new }
{
    let name = names.name(opcode);
    if is_unmodelled(opcode, name) {
        text.put(&[b'0', b'x', hex_digit(opcode / 16), hex_digit(opcode % 16)]);
    } else {
        text.put(name);
    }
}

// Puts the word of an instruction.
fn put_instruction(text: &mut Lent, fragment: &[u8], instruction: &Instruction, names: &Names)
    requires { Stands fragment.now instruction.now }
    ensures { Puts text.old (word_at fragment.now instruction.now) text.new }
{
    if instruction.opcode > 0x4e {
        put_code_word(text, instruction.opcode, names);
    } else {
        put_data_word(text, data(fragment, instruction.offset, instruction.next));
    }
}

// How many letters the word of data has.
fn data_word_size(bytes: &[u8]) -> usize
    requires { length bytes.now + 1 < 2 ^ 63 }
    ensures { result ≡ length (data_word bytes.now) }
{
    if bytes.is_empty() {
        3
    } else {
        2 * bytes.len() + 2
    }
}

// How many letters the word of a code that is no data push has.
fn code_word_size(opcode: u8, names: &Names) -> usize
    ensures { result ≡ length (code_word opcode) }
{
    let name = names.name(opcode);
    if is_unmodelled(opcode, name) {
        4
    } else {
        name.len()
    }
}

// How many letters the word of an instruction has.
fn word_size(fragment: &[u8], instruction: &Instruction, names: &Names) -> usize
    requires { Stands fragment.now instruction.now }
    ensures { result ≡ length (word_at fragment.now instruction.now) }
{
    if instruction.opcode > 0x4e {
        code_word_size(instruction.opcode, names)
    } else {
        data_word_size(data(fragment, instruction.offset, instruction.next))
    }
}

// How many letters the words of all instructions have, where none is malformed. They are counted up to the first word that is
// over the room: behind it only the instructions are counted, which takes less.
fn measure(fragment: &[u8], names: &Names, room: usize) -> Result<usize, Malformed>
    requires { room + 1 < 2 ^ 64 }
    ensures { Measures result fragment.now room }
{
    let mut offset = 0;
    let mut size: usize = 0;
    // No `for`: where the next instruction stands is known by the one before it.
    while let Some(instruction) = decode::decode_at(fragment, offset)? {
        offset = instruction.next;
        let space = usize::from(offset < fragment.len());
        size = size
            .saturating_add(word_size(fragment, &instruction, names))
            .saturating_add(space);
        if room < size {
            decode::count_instructions(fragment)?;
            return Ok(size);
        }
    }
    Ok(size)
}

// Puts the words of all instructions, where none is malformed.
fn put_listing(text: &mut Lent, fragment: &[u8], names: &Names) -> Result<(), Malformed>
    ensures same { result ≡ whole_or_malformed (malformed_at (decode fragment.now)) }
    ensures puts { IfOk result (λ _. Puts text.old (listing_of fragment.now) text.new) }
{
    let mut offset = 0;
    // No `for`: where the next instruction stands is known by the one before it.
    while let Some(instruction) = decode::decode_at(fragment, offset)? {
        put_instruction(text, fragment, &instruction, names);
        offset = instruction.next;
        if offset < fragment.len() {
            text.put(b" ");
        }
    }
    Ok(())
}

/// The lister: a fragment into a lent output, and how many bytes were written. Nothing is written before the whole fragment is
/// decoded and its listing counted, so that a refusal leaves the output as it was.
pub fn list(fragment: &[u8], out: &mut [u8]) -> Result<usize, Refused>
    ensures { converted_of result out.new ≡ listed fragment.now out.old }
{
    let names = Names::new();
    let size = measure(fragment, &names, out.len())?;
    if out.len() < size {
        return Err(Refusal::OutputShort.into());
    }
    put_listing(&mut Lent::new(out), fragment, &names)?;
    Ok(size)
}
