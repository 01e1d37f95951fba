// The bytes of a word of a listing, a push in its shortest length form.

#![tactic(auto)]

ghost use Rattle.std.specs.Prelude.{true, ◌≡◌, ℕ, ◌/◌, ◌≤◌, length};
ghost use Rattle.std.proofs.Math.Option.{some};
ghost use Rattle.definition_listings.specs.Assembling.{digit_read, hex_read, word_read};
ghost use Rattle.definition_listings.specs.Shortest.{in_form};
ghost use Rattle.text.specs.View.{Puts};
ghost use Rattle.words.specs.View.{opens, head_of, bytes_of};

use names::Names;
use text::{Lent, Line, push_word};

// The opcode and the length bytes in front of so many bytes of data.
fn head(n: usize) -> Line<5>
    requires { n ≤ 4294967295 }
    ensures { result.items ≡ head_of n }
{
    let mut head = Line::new();
    match n {
        0..=0x4b => head.push(n as u8),
        0x4c..=255 => {
            head.push(0x4c);
            head.push(n as u8);
        }
        256..=65535 => {
            head.push(0x4d);
            push_word(&mut head, &(n as u16).to_le_bytes());
        }
        _ => {
            head.push(0x4e);
            push_word(&mut head, &(n as u32).to_le_bytes());
        }
    }
    head
}

// Puts the opcode and the length bytes. Most are one byte, which is put by itself.
fn put_head(text: &mut Lent, n: usize)
    requires { n ≤ 4294967295 }
    ensures { Puts text.old (head_of n) text.new }
{
    if n <= 0x4b {
        text.put(&[n as u8]);
    } else {
        text.put(head(n).as_slice());
    }
}

// The value of a digit, by arithmetic alone: a letter that is no digit has some value too.
fn digit_value(letter: u8) -> u8
    ensures { (d : ℕ) → digit_read letter ≡ some d → result ≡ d }
{
    letter % 16 + 9 * (letter / 64)
}

// Writes the bytes of letters in hexadecimal. No letter is judged, so that the compiler makes several bytes at once.
fn write_data(place: &mut [u8], letters: &[u8])
    requires digits { hex_read letters.now ≡ some (in_form (hex_read letters.now)) }
    requires room { length place.old ≡ length letters.now / 2 }
    ensures { place.new ≡ in_form (hex_read letters.now) }
{
    for j in 0..place.len() {
        place[j] = 16 * digit_value(letters[2 * j]) + digit_value(letters[2 * j + 1]);
    }
}

// Puts the bytes of letters in hexadecimal.
fn put_data(text: &mut Lent, letters: &[u8])
    requires digits { hex_read letters.now ≡ some (in_form (hex_read letters.now)) }
    ensures { Puts text.old (in_form (hex_read letters.now)) text.new }
{
    text.fill(
        letters.len() / 2,
        |place|
            requires digits { hex_read letters.now ≡ some (in_form (hex_read letters.now)) }
            requires room { length place.now ≡ length letters.now / 2 }
        {
            write_data(place, letters);
        },
    );
}

// Puts the push of a word of data, which has two digits to a byte between its first and its last letter.
fn put_push(text: &mut Lent, word: &[u8])
    requires opens { opens word.now ≡ true }
    requires good { word_read word.now ≡ some (bytes_of word.now) }
    ensures { Puts text.old (bytes_of word.now) text.new }
{
    let letters = &word[1..word.len() - 1];
    put_head(text, letters.len() / 2);
    put_data(text, letters);
}

/// Puts the bytes of a word that is not strange.
pub fn put_bytes(text: &mut Lent, word: &[u8], names: &Names)
    requires { word_read word.now ≡ some (bytes_of word.now) }
    ensures { Puts text.old (bytes_of word.now) text.new }
{
    if words::is_data(word) {
        put_push(text, word);
    } else if let Some(code) = words::code_read(word, names) {
        text.put(&[code]);
    }
}
