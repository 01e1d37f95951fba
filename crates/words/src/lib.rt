// The words of a listing as they are read: whether a word is in the form, and how many bytes it has.

#![tactic(auto)]

ghost use Rattle.std.specs.Prelude.{true, false, ◌≡◌, ◌+◌, ◌<◌, ◌≤◌, length, IfSome};
ghost use Rattle.definition_listings.specs.Assembling.{digit_read};
ghost use Rattle.words.specs.View.{opens, hex_code, digit_option, all_digits, Reads, head_of, Sized};

use names::Names;
use opcodes::Class;

/// The value of a hexadecimal digit, none of any other letter.
pub fn digit(letter: u8) -> Option<u8>
    ensures same { result ≡ digit_option (digit_read letter) }
    ensures short { IfSome result (λ d. d < 16) }
{
    match letter {
        b'0'..=b'9' => Some(letter - b'0'),
        b'a'..=b'f' => Some(letter - b'a' + 10),
        _ => None,
    }
}

// Whether all letters are hexadecimal digits.
fn all_digits(letters: &[u8]) -> bool
    ensures { result ≡ all_digits letters.now }
{
    letters.iter().all(|&letter| digit(letter).is_some())
}

/// Whether a word begins with `<`.
pub fn is_data(word: &[u8]) -> bool
    ensures { result ≡ opens word.now }
{
    word.starts_with(b"<")
}

// Whether a word begins with `0x`.
fn is_hex_code(word: &[u8]) -> bool
    ensures { result ≡ hex_code word.now }
{
    word.starts_with(b"0x")
}

// A word that begins with `0x`: an unmodelled code in two digits.
fn unmodelled_read(word: &[u8]) -> Option<u8>
    requires opens { opens word.now ≡ false }
    requires begins { hex_code word.now ≡ true }
    ensures { Reads result word.now }
{
    let [_, _, high, low] = *word else {
        return None;
    };
    let code = 16 * digit(high)? + digit(low)?;
    if opcodes::class_of(code) == Class::Unmodelled {
        Some(code)
    } else {
        None
    }
}

/// The code of a word that does not begin with `<`, none of a strange one.
pub fn code_read(word: &[u8], names: &Names) -> Option<u8>
    requires { opens word.now ≡ false }
    ensures { Reads result word.now }
{
    if is_hex_code(word) {
        unmodelled_read(word)
    } else {
        names.code_of(word)
    }
}

// How many bytes a push of so many bytes of data has, in its shortest form: counted by itself, since a word is judged before a byte of
// it is put.
fn push_size(n: usize) -> usize
    requires { n ≤ 4294967295 }
    ensures { result ≡ length (head_of n) + n }
{
    match n {
        0..=0x4b => 1 + n,
        0x4c..=255 => 2 + n,
        256..=65535 => 3 + n,
        _ => 5 + n,
    }
}

// How many bytes a word that begins with `<` has, none of a strange one: bytes in hexadecimal, one at least, and `>`.
fn data_size(word: &[u8]) -> Option<usize>
    requires { opens word.now ≡ true }
    ensures { Sized word.now result }
{
    let n = word.len();
    if n % 2 != 0 || n < 4 || word[n - 1] != b'>' || !all_digits(&word[1..n - 1]) {
        return None;
    }
    let bytes = n / 2 - 1;
    if bytes > 4294967295 {
        return None;
    }
    Some(push_size(bytes))
}

/// How many bytes a word has, none of a strange one.
pub fn word_size(word: &[u8], names: &Names) -> Option<usize>
    ensures { Sized word.now result }
{
    if is_data(word) {
        data_size(word)
    } else {
        code_read(word, names).map(|_| 1)
    }
}
