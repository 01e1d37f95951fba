// The two stacks, and what the ordinary opcodes do to them.

#![tactic(auto)]

ghost use Rattle.std.specs.Prelude.{◌≡◌, true, false, ℕ, ◌+◌, ◌-◌, ◌≤◌, ◌<◌};
ghost use Rattle.slots.specs.View.{slots, Sound};

use decode::Value;
use number_form::{number_value, read_index};
use refusals::Refusal;
use slots::{UNKNOWN, code_length, code_of, join_codes, slot_value};

/// How many items the two stacks may hold together, as a caller lends it.
#[derive(Clone, Copy, Debug, PartialEq, Eq)]
pub struct Limit {
    items: u32,
    pub ghost low: { items ≤ 244 },
}

impl Limit {
    /// As many as there are slots.
    pub const BUILT_IN: Limit = Limit { items: 244 };

    pub fn new(items: u32) -> Limit
        requires { items ≤ 244 }
        ensures { result.items ≡ items }
    {
        Limit { items }
    }

    pub fn items(self) -> u32
        ensures { result ≡ self.items }
    {
        self.items
    }
}

/// Both stacks lie in the same 244 slots: main from the bottom, alt from the top end. A slot has a code and bytes, as the
/// crate slots has them.
// Codes and bytes stand in two arrays: in one array of values the stacks take nearly twice the memory, and a join ten times
// the instructions.
#[derive(Clone, Copy)]
pub struct Stacks {
    pub bytes: [u64; 244],
    pub mains: u32,
    pub alts: u32,
    pub codes: [u8; 244],
    // the two stacks do not overlap
    pub ghost room: { mains + alts ≤ 244 },
    // every slot is as the crate slots says, in use or not
    pub ghost sound: { Sound (slots bytes codes) },
}

/// What the methods by value return: the changed stacks, and whether the operation was refused.
#[derive(Clone, Copy)]
pub struct Stepped {
    pub stacks: Stacks,
    pub answer: Result<(), Refusal>,
}

/// The operations, each in place. What is refused may have dropped items already, as the definitions drop them before they ask
/// for room.
impl Stacks {
    ghost use Rattle.definition.specs.Classes.{DEPTH, SIZE, PICK, ZK};
    ghost use Rattle.definition.specs.Stacks.{push_item, drop_items, copy_items, rotate_items, tuck_top, nip_second, move_to_alt, move_from_alt, pop_index, zk_drop, plain_step};
    ghost use Rattle.definition.specs.Walk.{exact, marking, join_stacks, unknowns};
    ghost use Rattle.decode.specs.View.{low_bytes, item_of, Held};
    ghost use Rattle.slots.specs.View.{slot_item, code_of, sufficient, Canon};
    ghost use Rattle.slots.specs.Parts.{apart, turn};
    ghost use Rattle.stack.specs.View.{view, Yields, YieldsStep, Says, Steps};
    ghost use Rattle.stack.specs.Parts.{needed, roomy, Moves, Pops, Sizes};

    /// So many unknown items on each stack.
    pub fn new(main: u32, alt: u32) -> Stacks
        requires { main + alt ≤ 244 }
        ensures { view result ≡ unknowns main alt }
    {
        Stacks {
            bytes: [0; 244],
            mains: main,
            alts: alt,
            codes: [UNKNOWN; 244],
        }
    }

    // Whether main has n items.
    fn needs(&self, n: u64) -> Result<(), Refusal>
        ensures { result ≡ needed n self.now }
    {
        if u64::from(self.mains) < n {
            return Err(Refusal::MainDry {
                needed: n,
                had: self.mains,
            });
        }
        Ok(())
    }

    // Whether so many more items fit.
    fn room(&self, more: u32, limit: Limit) -> Result<(), Refusal>
        requires { more ≤ 244 }
        ensures { result ≡ roomy more limit.items self.now }
    {
        let wanted = self.mains + self.alts + more;
        if limit.items < wanted {
            return Err(Refusal::StacksFull {
                wanted,
                limit: limit.items,
            });
        }
        Ok(())
    }

    fn copy_slot(&mut self, from: usize, to: usize)
        requires { (from < 244) × (to < 244) }
        ensures { Moves (apart from to) to (to + 1) self.old self.new }
    {
        self.codes[to] = self.codes[from];
        self.bytes[to] = self.bytes[from];
    }

    // Copies count slots to a place above them.
    fn copy_slots(&mut self, from: usize, to: usize, count: usize)
        requires { (from + count ≤ to) × (to + count ≤ 244) }
        ensures { Moves (apart from to) to (to + count) self.old self.new }
    {
        for k in 0..count {
            self.copy_slot(from + k, to + k);
        }
    }

    // Puts the lowest shift of the slots from `from` up to `to` on top of the others.
    fn turn_slots(&mut self, from: usize, to: usize, shift: usize)
        requires { (from + shift ≤ to) × (to ≤ 244) }
        ensures { Moves (turn from (to - from - shift) shift) from to self.old self.new }
    {
        self.codes[from..to].rotate_left(shift);
        self.bytes[from..to].rotate_left(shift);
    }

    // Pushes the item of a slot.
    fn push_slot(&mut self, code: u8, bytes: u64, limit: Limit) -> Result<(), Refusal>
        requires { Canon code bytes }
        ensures { Yields result self.new (push_item limit.items (slot_item code bytes) (view self.old)) }
    {
        self.room(1, limit)?;
        let top = self.mains as usize;
        self.codes[top] = code;
        self.bytes[top] = bytes;
        self.mains += 1;
        Ok(())
    }

    /// Pushes a value.
    #[tactic(auto, using(crate::proofs::Values::pushes))]
    pub fn try_push(&mut self, v: Value, limit: Limit) -> Result<(), Refusal>
        requires { Held v }
        ensures { Yields result self.new (push_item limit.items (item_of v) (view self.old)) }
    {
        match v {
            Value::Unknown => self.push_slot(UNKNOWN, 0, limit),
            Value::Exact { len, bytes } => self.push_slot(code_of(len, bytes), bytes, limit),
        }
    }

    /// Pushes an item that a code says by itself.
    pub fn try_push_code(&mut self, code: u8, limit: Limit) -> Result<(), Refusal>
        requires { sufficient code ≡ true }
        ensures { Yields result self.new (push_item limit.items (slot_item code 0) (view self.old)) }
    {
        self.push_slot(code, 0, limit)
    }

    /// Pushes an exact item whose code does not suffice: it is its length.
    pub fn try_push_exact(&mut self, len: u8, bytes: u64, limit: Limit) -> Result<(), Refusal>
        requires held { Held (Value.Exact len bytes) }
        requires bytes_value { sufficient (code_of len bytes) ≡ false }
        ensures { Yields result self.new (push_item limit.items (exact (low_bytes len bytes)) (view self.old)) }
    {
        self.push_slot(len, bytes, limit)
    }

    /// Drops n items of main.
    pub fn try_drop_items(&mut self, n: u64) -> Result<(), Refusal>
        ensures { Yields result self.new (drop_items n (view self.old)) }
    {
        self.needs(n)?;
        self.mains -= n as u32;
        Ok(())
    }

    /// A plain class: drops items, and then pushes one unknown item or none.
    #[tactic(auto, using(crate::proofs::Mains::effects))]
    pub fn try_apply_effect(&mut self, pops: u32, pushes: u32, limit: Limit) -> Result<(), Refusal>
        requires { pushes ≤ 1 }
        ensures { Yields result self.new (plain_step marking limit.items pops pushes (view self.old)) }
    {
        self.try_drop_items(u64::from(pops))?;
        if pushes == 0 {
            return Ok(());
        }
        self.push_slot(UNKNOWN, 0, limit)
    }

    /// Appends the lowest count of the top depth items.
    pub fn try_extend_from_within(
        &mut self,
        depth: u64,
        count: u32,
        limit: Limit,
    ) -> Result<(), Refusal>
        requires { (count ≤ depth) × (count ≤ 244) }
        ensures { Yields result self.new (copy_items limit.items depth count (view self.old)) }
    {
        self.needs(depth)?;
        self.room(count, limit)?;
        let top = self.mains as usize;
        self.copy_slots(top - depth as usize, top, count as usize);
        self.mains += count;
        Ok(())
    }

    /// Puts the lowest shift of the top count items on top.
    pub fn try_rotate_left(&mut self, count: u64, shift: u32) -> Result<(), Refusal>
        requires { shift ≤ count }
        ensures { Yields result self.new (rotate_items count shift (view self.old)) }
    {
        self.needs(count)?;
        let top = self.mains as usize;
        self.turn_slots(top - count as usize, top, shift as usize);
        Ok(())
    }

    /// A copy of the top, and then the two that were on top above it.
    #[tactic(auto, using(crate::proofs::Mains::tucks))]
    pub fn try_tuck(&mut self, limit: Limit) -> Result<(), Refusal>
        ensures { Yields result self.new (tuck_top limit.items (view self.old)) }
    {
        self.needs(1)?;
        self.needs(2)?; // missing items are told before room
        self.room(1, limit)?;
        let top = self.mains as usize;
        self.copy_slot(top - 1, top);
        self.turn_slots(top - 2, top + 1, 2);
        self.mains += 1;
        Ok(())
    }

    /// Drops the item below the top.
    pub fn try_nip(&mut self) -> Result<(), Refusal>
        ensures { Yields result self.new (nip_second (view self.old)) }
    {
        self.needs(2)?;
        let top = self.mains as usize - 1;
        self.copy_slot(top, top - 1);
        self.mains -= 1;
        Ok(())
    }

    /// Moves the top of main to alt. No room is wanted: with 244 items the top of main lies where that of alt comes.
    pub fn try_move_to_alt(&mut self) -> Result<(), Refusal>
        ensures { Yields result self.new (move_to_alt (view self.old)) }
    {
        self.needs(1)?;
        let from = self.mains as usize - 1;
        let to = 243 - self.alts as usize;
        self.copy_slot(from, to);
        self.mains -= 1;
        self.alts += 1;
        Ok(())
    }

    /// Moves the top of alt to main.
    pub fn try_move_from_alt(&mut self) -> Result<(), Refusal>
        ensures { Yields result self.new (move_from_alt (view self.old)) }
    {
        if self.alts == 0 {
            return Err(Refusal::AltDry);
        }
        let from = 244 - self.alts as usize;
        let to = self.mains as usize;
        self.copy_slot(from, to);
        self.mains += 1;
        self.alts -= 1;
        Ok(())
    }

    /// Leaves what two stacks of equal heights have in common.
    pub fn try_join(&mut self, other: &Stacks) -> Result<(), Refusal>
        ensures { Yields result self.new (join_stacks (view self.old) (view other.now)) }
    {
        if self.mains != other.mains || self.alts != other.alts {
            return Err(Refusal::ArmsDiffer);
        }
        let mut codes = self.codes;
        join_codes(&mut codes, &self.bytes, &other.codes, &other.bytes, 0, 244);
        self.codes = codes;
        Ok(())
    }

    // The index or the count on top of main, which is still there.
    #[tactic(auto, using(crate::proofs::Pops::popping))]
    fn top_count(&self) -> Result<u64, Refusal>
        ensures { Pops self.now result }
    {
        self.needs(1)?; // a missing item is told before any index
        let top = self.mains as usize - 1;
        Ok(read_index(slot_value(self.codes[top], self.bytes[top]))?)
    }

    /// PICK: pops an index, and copies the item so far below the top.
    pub fn try_pick(&mut self, limit: Limit) -> Result<(), Refusal>
        ensures { YieldsStep result self.new limit.items PICK (view self.old) }
    {
        let n = self.top_count()?;
        self.mains -= 1;
        self.try_extend_from_within(n + 1, 1, limit)
    }

    /// ROLL: pops an index, and moves the item so far below the top onto it.
    pub fn try_roll(&mut self) -> Result<(), Refusal>
        ensures { Yields result self.new (pop_index marking (view self.old) (λ n t. rotate_items (n + 1) 1 t)) }
    {
        let n = self.top_count()?;
        self.mains -= 1;
        self.try_rotate_left(n + 1, 1)
    }

    /// DEPTH: pushes the height of main.
    pub fn try_depth(&mut self, limit: Limit) -> Result<(), Refusal>
        ensures { YieldsStep result self.new limit.items DEPTH (view self.old) }
    {
        let height = number_value(u64::from(self.mains));
        self.try_push(height, limit)
    }

    // What SIZE pushes over the item of a slot.
    fn size_value(code: u8) -> Value
        ensures { Sizes code result }
    {
        if code == UNKNOWN {
            Value::Unknown
        } else {
            number_value(u64::from(code_length(code)))
        }
    }

    /// SIZE: pushes the length of the top, which stays.
    pub fn try_size(&mut self, limit: Limit) -> Result<(), Refusal>
        ensures { YieldsStep result self.new limit.items SIZE (view self.old) }
    {
        self.needs(1)?;
        let length = Stacks::size_value(self.codes[self.mains as usize - 1]);
        self.try_push(length, limit)
    }

    // Drops n items and pushes 1.
    fn zk_drop(&mut self, n: u64, limit: Limit) -> Result<(), Refusal>
        ensures { Yields result self.new (zk_drop marking limit.items n (view self.old)) }
    {
        self.try_drop_items(n)?;
        self.push_slot(11, 0, limit)
    }

    /// ZK: the tag 0x20 (Groth16) pops key, proof and a count, and drops that many; 0x21 (R0Succinct) drops 8. Their codes are
    /// 10 more.
    pub fn try_zk(&mut self, limit: Limit) -> Result<(), Refusal>
        ensures { YieldsStep result self.new limit.items ZK (view self.old) }
    {
        self.needs(1)?;
        match self.codes[self.mains as usize - 1] {
            0x2b => {
                self.mains -= 1;
                self.zk_drop(8, limit)
            }
            // without a key or a proof, one item is missing
            0x2a if self.mains < 3 => Err(Refusal::MainDry { needed: 1, had: 0 }),
            0x2a => {
                self.mains -= 3;
                let count = self.top_count()?;
                self.mains -= 1;
                self.zk_drop(count, limit)
            }
            _ => Err(Refusal::BadTag),
        }
    }

    // The same operations by value: a form of the project. Each is one call, and a closure handed to one function is no shorter.

    pub fn push(mut self, v: Value, limit: Limit) -> Stepped
        requires { Held v }
        ensures { Says result (push_item limit.items (item_of v) (view self)) }
    {
        Stepped {
            answer: self.try_push(v, limit),
            stacks: self,
        }
    }

    pub fn push_code(mut self, code: u8, limit: Limit) -> Stepped
        requires { sufficient code ≡ true }
        ensures { Says result (push_item limit.items (slot_item code 0) (view self)) }
    {
        Stepped {
            answer: self.try_push_code(code, limit),
            stacks: self,
        }
    }

    pub fn push_exact(mut self, len: u8, bytes: u64, limit: Limit) -> Stepped
        requires held { Held (Value.Exact len bytes) }
        requires bytes_value { sufficient (code_of len bytes) ≡ false }
        ensures { Says result (push_item limit.items (exact (low_bytes len bytes)) (view self)) }
    {
        Stepped {
            answer: self.try_push_exact(len, bytes, limit),
            stacks: self,
        }
    }

    pub fn drop_items(mut self, n: u64) -> Stepped
        ensures { Says result (drop_items n (view self)) }
    {
        Stepped {
            answer: self.try_drop_items(n),
            stacks: self,
        }
    }

    pub fn apply_effect(mut self, pops: u32, pushes: u32, limit: Limit) -> Stepped
        requires { pushes ≤ 1 }
        ensures { Says result (plain_step marking limit.items pops pushes (view self)) }
    {
        Stepped {
            answer: self.try_apply_effect(pops, pushes, limit),
            stacks: self,
        }
    }

    pub fn extend_from_within(mut self, depth: u64, count: u32, limit: Limit) -> Stepped
        requires { (count ≤ depth) × (count ≤ 244) }
        ensures { Says result (copy_items limit.items depth count (view self)) }
    {
        Stepped {
            answer: self.try_extend_from_within(depth, count, limit),
            stacks: self,
        }
    }

    pub fn rotate_left(mut self, count: u64, shift: u32) -> Stepped
        requires { shift ≤ count }
        ensures { Says result (rotate_items count shift (view self)) }
    {
        Stepped {
            answer: self.try_rotate_left(count, shift),
            stacks: self,
        }
    }

    pub fn tuck(mut self, limit: Limit) -> Stepped
        ensures { Says result (tuck_top limit.items (view self)) }
    {
        Stepped {
            answer: self.try_tuck(limit),
            stacks: self,
        }
    }

    pub fn nip(mut self) -> Stepped
        ensures { Says result (nip_second (view self)) }
    {
        Stepped {
            answer: self.try_nip(),
            stacks: self,
        }
    }

    pub fn move_to_alt(mut self) -> Stepped
        ensures { Says result (move_to_alt (view self)) }
    {
        Stepped {
            answer: self.try_move_to_alt(),
            stacks: self,
        }
    }

    pub fn move_from_alt(mut self) -> Stepped
        ensures { Says result (move_from_alt (view self)) }
    {
        Stepped {
            answer: self.try_move_from_alt(),
            stacks: self,
        }
    }

    pub fn join(mut self, other: Stacks) -> Stepped
        ensures { Says result (join_stacks (view self) (view other)) }
    {
        Stepped {
            answer: self.try_join(&other),
            stacks: self,
        }
    }

    pub fn pick(mut self, limit: Limit) -> Stepped
        ensures { Steps result limit.items PICK (view self) }
    {
        Stepped {
            answer: self.try_pick(limit),
            stacks: self,
        }
    }

    pub fn roll(mut self) -> Stepped
        ensures { Says result (pop_index marking (view self) (λ n t. rotate_items (n + 1) 1 t)) }
    {
        Stepped {
            answer: self.try_roll(),
            stacks: self,
        }
    }

    pub fn depth(mut self, limit: Limit) -> Stepped
        ensures { Steps result limit.items DEPTH (view self) }
    {
        Stepped {
            answer: self.try_depth(limit),
            stacks: self,
        }
    }

    pub fn size(mut self, limit: Limit) -> Stepped
        ensures { Steps result limit.items SIZE (view self) }
    {
        Stepped {
            answer: self.try_size(limit),
            stacks: self,
        }
    }

    pub fn zk(mut self, limit: Limit) -> Stepped
        ensures { Steps result limit.items ZK (view self) }
    {
        Stepped {
            answer: self.try_zk(limit),
            stacks: self,
        }
    }
}
