// Whether the header of a paper is right.

#![tactic(auto)]

ghost use Rattle.std.specs.Prelude.{◌≡◌, ◌-◌, ◌^◌, ◌≤◌, length};
// `Papers.f` is the f of the definitions, in crates/definition/specs/Papers.antt.
ghost use Rattle.definition.specs.Papers as Papers;
ghost use Rattle.definition.specs.Papers.{shares_none, good_parts, good_header};
ghost use Rattle.good_header.specs.View.{parts_from};
ghost use Rattle.header.specs.View.{part_of};

use header::{Part, entry_count, nth_part};

// Whether the part lies after the header and within the paper.
fn within(part: Part, header: usize, size: usize) -> bool
    ensures { result ≡ Papers.within header size (part_of part) }
{
    header <= part.start() && part.end() <= size
}

/// Whether two parts share a byte.
pub fn share(a: Part, b: Part) -> bool
    ensures { result ≡ Papers.share (part_of a) (part_of b) }
{
    a.start().max(b.start()) < a.end().min(b.end())
}

// Whether the part shares no byte with any of the paper's parts from part `from` up to part `count`.
#[tactic(auto, using(crate::proofs::Headers::part_steps))]
fn apart_from(paper: &[u8], part: Part, from: usize, count: usize) -> bool
    requires { count ≤ 2 ^ 16 }
    ensures { result ≡ shares_none (part_of part) (parts_from paper.now from (count - from)) }
{
    for k in from..count {
        if share(part, nth_part(paper, k)) {
            return false;
        }
    }
    true
}

// Whether each of the first `count` parts lies where it may, and no two share a byte.
#[tactic(auto, using(crate::proofs::Headers::part_steps))]
fn parts_ok(paper: &[u8], header: usize, count: usize) -> bool
    requires { count ≤ 2 ^ 16 }
    ensures { result ≡ good_parts header (length paper.now) (parts_from paper.now 0 count) }
{
    for k in 0..count {
        let part = nth_part(paper, k);
        if !within(part, header, paper.len()) || !apart_from(paper, part, k + 1, count) {
            return false;
        }
    }
    true
}

/// Whether the header is right: not 19. The parts are the initialiser and the bodies.
#[tactic(auto, using(crate::proofs::Headers::header_rules))]
pub fn header_ok(paper: &[u8]) -> bool
    ensures { result ≡ good_header paper.now }
{
    let count = entry_count(paper);
    let header = 8 + 6 * count;
    (1..=32).contains(&count) && header <= paper.len() && parts_ok(paper, header, count + 1)
}
