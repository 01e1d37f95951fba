// Reading a paper: its fields, its parts, its entries, the dispatch check.
// A paper is a slice, and no struct over one: it would have no fact to keep.

#![tactic(auto)]

ghost use Rattle.std.specs.Prelude.{List, ◌≡◌, ℕ, ◌+◌, ◌*◌, ◌^◌, ◌<◌, ◌≤◌, length};
// `Papers.f` is the f of the definitions, in crates/definition/specs/Papers.antt.
ghost use Rattle.definition.specs.Papers as Papers;
ghost use Rattle.definition.specs.Papers.{part_at, bytes_of, entries, most_parameters, fragments, dispatch};
ghost use Rattle.definition.specs.Stacks.{Rules};
ghost use Rattle.header.specs.View.{dispatched, entry_at, entry_of, part_of};

/// The u16 field at an offset, lowest byte first. Bytes past the end count as missing.
pub fn field(paper: &[u8], offset: usize) -> u16
    ensures { result ≡ Papers.field paper.now offset }
{
    match paper.get(offset..) {
        Some([low, high, ..]) => u16::from_le_bytes([*low, *high]),
        Some([low]) => u16::from(*low),
        _ => 0,
    }
}

/// Where a part of a paper lies.
#[derive(Clone, Copy, Debug, PartialEq, Eq)]
pub struct Part {
    pub offset: u16,
    pub size: u16,
}

/// The part whose offset and length stand at `at`. At the paper's end and past it both are 0.
pub fn part_at(paper: &[u8], at: usize) -> Part
    ensures { part_of result ≡ part_at paper.now at }
{
    Part {
        offset: field(paper, at),
        size: field(paper, at.saturating_add(2)),
    }
}

impl Part {
    /// Where the part starts.
    pub fn start(self) -> usize
        ensures { result ≡ self.offset }
    {
        usize::from(self.offset)
    }

    /// Where the part ends.
    pub fn end(self) -> usize
        ensures { result ≡ self.offset + self.size }
    {
        self.start() + usize::from(self.size)
    }

    /// The bytes of the part, as far as the paper has them.
    pub fn bytes<'a>(self, paper: &'a [u8]) -> &'a [u8]
        ensures { result.now ≡ bytes_of paper.now (part_of self) }
    {
        let end = self.end().min(paper.len());
        &paper[self.start().min(end)..end]
    }
}

/// An entry of a paper.
#[derive(Clone, Copy, Debug, PartialEq, Eq)]
pub struct Entry {
    pub parameters: u16,
    pub body: Part,
}

/// How many entries the paper has.
pub fn entry_count(paper: &[u8]) -> usize
    ensures same { result ≡ Papers.entry_count paper.now }
    ensures low { result < 2 ^ 16 }
{
    usize::from(field(paper, 0))
}

/// How many state fields the paper has.
pub fn state_fields(paper: &[u8]) -> u16
    ensures { result ≡ Papers.state_fields paper.now }
{
    field(paper, 2)
}

/// Where the initialiser lies.
pub fn initialiser(paper: &[u8]) -> Part
    ensures { part_of result ≡ Papers.initialiser paper.now }
{
    part_at(paper, 4)
}

/// Part `k`: the initialiser is part 0, the body of entry k part k + 1. Offset and length of part k stand at 4 + 6 * k.
pub fn nth_part(paper: &[u8], k: usize) -> Part
    requires { k ≤ 2 ^ 16 }
    ensures { part_of result ≡ part_at paper.now (4 + 6 * k) }
{
    part_at(paper, 4 + 6 * k)
}

/// Entry `k`, from 0.
pub fn nth_entry(paper: &[u8], k: usize) -> Entry
    requires { k < 2 ^ 16 }
    ensures { entry_of result ≡ entry_at paper.now k }
{
    Entry {
        parameters: field(paper, 8 + 6 * k),
        body: part_at(paper, 8 + 6 * k + 2),
    }
}

/// The first entry that the dispatch check refuses, and its sum, which is over the limit.
#[derive(Clone, Copy, Debug, PartialEq, Eq)]
pub struct DispatchError {
    pub entry: usize,
    pub sum: u32,
}

/// The dispatch check of each entry: parameters + F + 3 may not be over the limit.
pub fn dispatch_check(paper: &[u8], limit: u32) -> Result<(), DispatchError>
    ensures { (R : Rules) (log : List ℕ)
        → R.limit ≡ limit
        → dispatch R paper.now 0 (entries paper.now) log
        ≡ dispatched R paper.now result log }
{
    let fields = u32::from(state_fields(paper));
    for entry in 0..entry_count(paper) {
        let sum = u32::from(nth_entry(paper, entry).parameters) + fields + 3;
        if sum > limit {
            return Err(DispatchError { entry, sum });
        }
    }
    Ok(())
}

/// The parameters of the entry with most.
pub fn most_parameters(paper: &[u8]) -> u16
    ensures { result ≡ most_parameters (entries paper.now) }
{
    let mut most = 0;
    for k in 0..entry_count(paper) {
        most = nth_entry(paper, k).parameters.max(most);
    }
    most
}

/// How many fragments are marked: the bodies, and an initialiser that isn't empty.
#[tactic(auto, using(crate::proofs::Fragments::counting))]
pub fn fragment_count(paper: &[u8]) -> usize
    ensures { result ≡ length (fragments paper.now) }
{
    entry_count(paper) + usize::from(initialiser(paper).size != 0)
}
