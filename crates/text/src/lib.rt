// Words and numbers as text: appended to a line, or put into lent bytes.

#![tactic(auto)]

ghost use Rattle.std.specs.Prelude.{[], ◌∷◌, ◌++◌, ◌≡◌, ◌+◌, ◌^◌, ◌≤◌, ◌<◌, length};
ghost use Rattle.std.specs.Fn.{FnOnceTakesAtMut, FnOnceReturnsAtMut};
ghost use Rattle.definition.specs.Basics.{Bytes};
ghost use Rattle.arrayvec.specs.ArrayVec.{array_vec_len};
ghost use Rattle.definition.specs.Lines.{decimal};
ghost use Rattle.definition_listings.specs.Hex.{hex_digit, hex_byte};

use arrayvec::ArrayVec;

/// A line of at most `N` bytes, which grows at its end.
pub type Line<const N: usize> = ArrayVec<u8, N>;

/// A text that is put into lent bytes: what has room is written, and all of it is counted.
#[derive(Drop)]
pub struct Lent<'a> {
    bytes: &'a mut [u8],
    size: usize,
    // also where the text is behind a reference
    pub ghost counted: { size < 2 ^ 64 },
}

impl<'a> Lent<'a> {
    ghost use Rattle.text.specs.View.{Puts};

    /// No text yet.
    pub fn new(bytes: &'a mut [u8]) -> Lent<'a>
        ensures same_bytes { result.bytes.ghost_name ≡ bytes.entry.ghost_name }
        ensures as_lent { result.bytes.now ≡ bytes.old }
        ensures empty { result.size ≡ 0 }
    {
        Lent { bytes, size: 0 }
    }

    /// How many bytes the text has: 2^64 - 1 where it has more.
    pub fn size(&self) -> usize
        ensures { result ≡ self.now.size }
    {
        self.size
    }

    /// Puts so many bytes behind the text, by a step that writes them, which is run where there is room.
    pub fn fill<F: FnOnce(&mut [u8])>(&mut self, size: usize, write: F)
        requires { (place : Bytes) → length place ≡ size → FnOnceTakesAtMut F.FnOnce write place }
        ensures { (t : Bytes) → length t ≡ size
            → ((place new : Bytes) → length place ≡ size → FnOnceReturnsAtMut F.FnOnce write place tt new → new ≡ t)
            → Puts self.old t self.new }
    {
        let start = self.size;
        self.size = start.saturating_add(size);
        if self.size <= self.bytes.len() {
            write(&mut self.bytes[start..self.size]);
        }
    }

    /// Puts a word behind the text.
    pub fn put(&mut self, word: &[u8])
        ensures { Puts self.old word.now self.new }
    {
        self.fill(
            word.len(),
            |place|
                requires { length place.now ≡ length word.now }
            {
                place.copy_from_slice(word);
            },
        );
    }
}

/// Appends a word.
pub fn push_word<const N: usize>(line: &mut Line<N>, word: &[u8])
    requires { array_vec_len line.old + length word.now ≤ N }
    ensures items { line.new.items ≡ line.old.items ++ word.now }
    ensures len { array_vec_len line.new ≡ array_vec_len line.old + length word.now }
{
    line.try_extend_from_slice(word).unwrap();
}

/// Appends a number in decimal.
#[tactic(auto, using(crate::proofs::Texts::printed))]
pub fn push_number<const N: usize>(line: &mut Line<N>, n: u64)
    requires { array_vec_len line.old + length (decimal n) ≤ N }
    ensures items { line.new.items ≡ line.old.items ++ decimal n }
    ensures len { array_vec_len line.new ≡ array_vec_len line.old + length (decimal n) }
{
    push_word(line, itoa::Buffer::new().format(n).as_bytes());
}

/// Appends a word and the number behind it, of at most 20 digits.
#[tactic(auto, using(crate::proofs::Texts::printed))]
pub fn push_labelled<const N: usize>(line: &mut Line<N>, word: &[u8], n: u64)
    requires { array_vec_len line.old + length word.now + 20 ≤ N }
    ensures items { line.new.items ≡ line.old.items ++ (word.now ++ decimal n) }
    ensures short { array_vec_len line.new ≤ array_vec_len line.old + length word.now + 20 }
{
    push_word(line, word);
    push_number(line, n);
}

/// Appends a byte in hexadecimal.
pub fn push_hex<const N: usize>(line: &mut Line<N>, byte: u8)
    requires { array_vec_len line.old + 2 ≤ N }
    ensures items { line.new.items ≡ line.old.items ++ hex_byte byte }
    ensures len { array_vec_len line.new ≡ array_vec_len line.old + 2 }
{
    line.push(hex_digit(byte / 16));
    line.push(hex_digit(byte % 16));
}

/// A hexadecimal digit.
pub fn hex_digit(d: u8) -> u8
    requires { d < 16 }
    ensures { result ≡ hex_digit d }
{
    if d < 10 { b'0' + d } else { b'a' - 10 + d }
}
