// The accepted fragments of a paper, kept in an array, so that they are copied as the paper's verdict is.

ghost use Rattle.std.specs.Prelude.{[], ◌∷◌, ◌++◌, ◌≡◌, ◌≤◌, ◌<◌, length};

use stack_analysis::{Accepted, Heights};

/// The fragments of a paper that are accepted, in their order: at most 33.
#[derive(Clone, Copy)]
pub struct AcceptedFragments {
    fragments: [Accepted<Heights>; 33],
    count: usize,
    pub ghost few: { count ≤ 33 },
}

impl AcceptedFragments {
    ghost use Rattle.paper.specs.View.{items_of};

    // None yet.
    pub(crate) fn new() -> AcceptedFragments
        ensures { items_of result ≡ [] }
    {
        AcceptedFragments {
            fragments: [Accepted::default(); 33],
            count: 0,
        }
    }

    // One more behind the others. There must be room.
    pub(crate) fn push(&mut self, fragment: Accepted<Heights>)
        requires { length (items_of self.old) < 33 }
        ensures { items_of self.new ≡ items_of self.old ++ fragment ∷ [] }
    {
        self.fragments[self.count] = fragment;
        self.count += 1;
    }

    /// The fragments.
    pub fn as_slice(&self) -> &[Accepted<Heights>]
        ensures { result.now ≡ items_of self.now }
    {
        &self.fragments[..self.count]
    }
}
