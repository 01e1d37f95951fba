// The stacks that a verdict ends with, in the form that a caller reads.

#![tactic(auto)]

ghost use Rattle.std.specs.Prelude.{◌≡◌, ℕ, ◌+◌, ◌<◌, get_or};
ghost use Rattle.definition.specs.Walk.{unknown};
ghost use Rattle.decode.specs.View.{item_of};
ghost use Rattle.stack.specs.View.{view};
ghost use Rattle.ends.specs.View.{items_of, value_at, end_stacks_of, packed_end, no_stacks};
ghost use Rattle.ends.specs.Parts.{end_slot};

use decode::Value;
use slots::slot_value;
use stack::Stacks;

/// So many items of main, from bottom to top, and then so many of alt, from bottom to top. Unused places are unknown.
// No ghost field says that they are at most 244: the definitions make the struct of any stacks.
#[derive(Clone, Copy)]
pub struct EndStacks {
    pub main: u32,
    pub alt: u32,
    pub items: [Value; 244],
}

// The slot of item k of all, main from bottom to top and then alt from bottom to top.
#[tactic(auto, unfolding(crate::specs::Parts::end_slot))]
fn end_slot(k: usize, mains: usize) -> usize
    requires { k < mains + 244 }
    ensures { result ≡ end_slot mains k }
{
    if k < mains { k } else { 243 - (k - mains) }
}

impl EndStacks {
    /// No items.
    #[tactic(auto, unfolding(crate::specs::View::packed_end))]
    pub fn none() -> EndStacks
        ensures { result ≡ packed_end no_stacks }
    {
        EndStacks {
            main: 0,
            alt: 0,
            items: [Value::Unknown; 244],
        }
    }

    /// The items of stacks.
    pub fn of(stacks: &Stacks) -> EndStacks
        ensures { result ≡ packed_end (view stacks.now) }
    {
        let mains = stacks.mains as usize;
        let mut items = [Value::Unknown; 244];
        for k in 0..mains + stacks.alts as usize {
            let i = end_slot(k, mains);
            items[k] = slot_value(stacks.codes[i], stacks.bytes[i]);
        }
        EndStacks {
            main: stacks.mains,
            alt: stacks.alts,
            items,
        }
    }

    /// Item k of all, from 0; unknown beyond them.
    #[tactic(auto, using(crate::proofs::Ends::reads))]
    pub fn item(&self, k: usize) -> Value
        ensures same { result ≡ value_at self.now k }
        ensures shows { item_of result ≡ get_or (items_of (end_stacks_of self.now)) k unknown }
    {
        if k < self.main as usize + self.alt as usize && k < self.items.len() {
            self.items[k]
        } else {
            Value::Unknown
        }
    }
}
