// What is wrong with the header of a paper, found and put into words: what stands behind verdict number 19.

#![tactic(auto)]

ghost use Rattle.std.specs.Prelude.{◌≡◌, ℕ, ◌-◌, ◌^◌, ◌≤◌, length};
ghost use Rattle.good_header.specs.View.{parts_from};
ghost use Rattle.header.specs.View.{part_of};
ghost use Rattle.faults.specs.Faults.{short_paper, bad_count, cut_header, in_header, past_paper, sharing, shared_with};
ghost use Rattle.faults.specs.Faults.{part_fault, fault, part_name, fault_text, fault_words};
ghost use Rattle.faults.specs.View.{fault_of, found_of, shared_of};

use header::{Part, nth_part};
use text::{Line, push_labelled, push_number, push_word};

/// A fault; parts are counted from 0, the initialiser and then the bodies.
#[derive(Clone, Copy, Debug, PartialEq, Eq)]
pub enum Fault {
    Short { bytes: usize },
    Count { entries: u16 },
    Cut { entries: u16, bytes: usize },
    Inside { part: usize },
    Past { part: usize },
    Shared { part: usize, other: usize },
}

// The first of the paper's parts, from part `from` up to part `count`, that shares a byte with this one.
#[tactic(auto, using(crate::proofs::Parts::part_rules))]
fn first_shared(paper: &[u8], part: Part, from: usize, count: usize) -> Option<usize>
    requires { count ≤ 2 ^ 16 }
    ensures { (k : ℕ) → shared_of k result ≡ shared_with (part_of part) k from (parts_from paper.now from (count - from)) }
{
    for k in from..count {
        if good_header::share(part, nth_part(paper, k)) {
            return Some(k);
        }
    }
    None
}

// What is wrong with the first `count` parts: with each by itself, and then with those after it.
#[tactic(auto, using(crate::proofs::Parts::part_rules))]
fn fault_in(paper: &[u8], header: usize, count: usize) -> Option<Fault>
    requires { count ≤ 2 ^ 16 }
    ensures { found_of result ≡ part_fault header (length paper.now) 0 (parts_from paper.now 0 count) }
{
    for k in 0..count {
        let part = nth_part(paper, k);
        if part.start() < header {
            return Some(Fault::Inside { part: k });
        }
        if paper.len() < part.end() {
            return Some(Fault::Past { part: k });
        }
        if let Some(other) = first_shared(paper, part, k + 1, count) {
            return Some(Fault::Shared { part: k, other });
        }
    }
    None
}

/// What is wrong with a header, if anything is.
#[tactic(auto, using(crate::proofs::Parts::header_rules))]
pub fn find(paper: &[u8]) -> Option<Fault>
    ensures { found_of result ≡ fault paper.now }
{
    let bytes = paper.len();
    let entries = header::field(paper, 0);
    let count = usize::from(entries);
    let header = 8 + 6 * count;
    if bytes < 8 {
        Some(Fault::Short { bytes })
    } else if !(1..=32).contains(&count) {
        Some(Fault::Count { entries })
    } else if bytes < header {
        Some(Fault::Cut { entries, bytes })
    } else {
        fault_in(paper, header, count + 1)
    }
}

// The name of a part.
#[tactic(auto, using(crate::proofs::Words::body_name))]
fn part_name(part: usize) -> Line<38>
    ensures { result.items ≡ part_name part }
{
    let mut line = Line::new();
    if part == 0 {
        push_word(&mut line, b"the initialiser");
    } else {
        push_labelled(&mut line, b"the body of entry ", (part - 1) as u64);
    }
    line
}

// A fault in words.
#[tactic(auto, using(text::proofs::Texts::printed))]
fn fault_text(f: Fault) -> Line<108>
    ensures { result.items ≡ fault_text (fault_of f) }
{
    let mut line = Line::new();
    match f {
        Fault::Short { bytes } => {
            push_number(&mut line, bytes as u64);
            push_word(&mut line, b" bytes, fewer than 8");
        }
        Fault::Count { entries } => {
            push_labelled(&mut line, b"entries ", u64::from(entries));
            push_word(&mut line, b", 1 to 32 allowed");
        }
        Fault::Cut { entries, bytes } => {
            push_number(&mut line, u64::from(entries));
            push_labelled(&mut line, b" entries need ", 8 + 6 * u64::from(entries));
            push_labelled(&mut line, b" bytes, the paper has ", bytes as u64);
        }
        Fault::Inside { part } => {
            push_word(&mut line, &part_name(part));
            push_word(&mut line, b" starts in the header");
        }
        Fault::Past { part } => {
            push_word(&mut line, &part_name(part));
            push_word(&mut line, b" ends past the paper");
        }
        Fault::Shared { part, other } => {
            push_word(&mut line, &part_name(part));
            push_word(&mut line, b" shares a byte with ");
            push_word(&mut line, &part_name(other));
        }
    }
    line
}

/// What is wrong with the header of a paper, in words behind `: `; nothing where nothing is.
#[tactic(auto, unfolding(crate::specs::Faults::fault_words))]
pub fn fault_words(paper: &[u8]) -> Line<110>
    ensures { result.items ≡ fault_words (fault paper.now) }
{
    let mut line = Line::new();
    if let Some(fault) = find(paper) {
        push_word(&mut line, b": ");
        push_word(&mut line, &fault_text(fault));
    }
    line
}
