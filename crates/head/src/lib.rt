// The reading head: it rests on a fragment and yields its instructions in order, and then the end, or where the fragment is
// malformed, again and again. The promises say the sequence: a new head has the whole code of its fragment left, and a read yields
// what the code left yields first and leaves the rest.

#![tactic(auto)]

ghost use Rattle.std.specs.Prelude.{◌≡◌};
ghost use Rattle.definition.specs.Decoding.{decode};
ghost use Rattle.decode.specs.View.{decoded_at, yield_of, yielded, rest};
ghost use Rattle.head.specs.View.{left, offset_after};

use decode::{Instruction, Malformed};

/// The head, over a fragment and at an offset of it: a form of the project.
// It is no `Iterator`: at a malformed instruction it would give the same error for ever.
#[derive(Clone, Copy, Debug)]
pub struct Head<'a> {
    pub fragment: &'a [u8],
    pub offset: usize,
}

#[tactic(auto, using(crate::proofs::Sequence::sequence))]
impl<'a> Head<'a> {
    /// A head at the fragment's start.
    pub fn new(fragment: &'a [u8]) -> Head<'a>
        ensures fragment { result.fragment ≡ fragment.entry }
        ensures code { left result ≡ decode fragment.now }
        ensures start { result.offset ≡ 0 }
    {
        Head {
            fragment,
            offset: 0,
        }
    }

    /// What the head yields where it stands.
    pub fn next(self) -> Result<Option<Instruction>, Malformed>
        ensures yields { yield_of result ≡ yielded (left self.entry) }
        ensures same { result ≡ decoded_at self.entry.fragment.now self.entry.offset }
    {
        decode::decode_at(self.fragment, self.offset)
    }

    /// The head after what it yields: behind the instruction. At the end, and where the fragment is malformed, it stays, so that it
    /// yields the same again.
    pub fn advance(mut self) -> Head<'a>
        ensures fragment { result.fragment ≡ self.entry.fragment }
        ensures code { left result ≡ rest (left self.entry) }
        ensures offset { result.offset ≡ offset_after (decoded_at self.entry.fragment.now self.entry.offset) self.entry.offset }
    {
        let _ = self.read();
        self
    }

    /// A head that is lent: it yields what stands where it is, and moves on.
    pub fn read(&mut self) -> Result<Option<Instruction>, Malformed>
        ensures yields { yield_of result ≡ yielded (left self.old) }
        ensures fragment { self.new.fragment ≡ self.old.fragment }
        ensures code { left self.new ≡ rest (left self.old) }
        ensures same { result ≡ decoded_at self.old.fragment.now self.old.offset }
        ensures offset { self.new.offset ≡ offset_after result self.old.offset }
    {
        let decoded = decode::decode_at(self.fragment, self.offset);
        if let Ok(Some(instruction)) = decoded {
            self.offset = instruction.next;
        }
        decoded
    }
}
