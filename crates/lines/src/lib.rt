// The lines that `stackmark` prints.

#![tactic(auto)]

ghost use Rattle.std.specs.Prelude.{List, ◌++◌, ◌≡◌, ℕ, ◌+◌, ◌-◌, ◌≤◌, take, drop, replicate};
ghost use Rattle.arrayvec.specs.ArrayVec.{array_vec_len};
ghost use Rattle.definition.specs.Lines.{name, refused_line, lines_of, printed};
ghost use Rattle.definition.specs.Papers.{PaperMarked, entry_count, mark_paper};
ghost use Rattle.definition_rules.specs.Maps.{mark_paper_with, printed_with};
ghost use Rattle.definition.specs.Stacks.{built_in};
ghost use Rattle.refusals.specs.View.{numbers_of};
ghost use Rattle.walk.specs.Runs.{options_of};
ghost use Rattle.paper.specs.View.{paper_of, Holds};
ghost use Rattle.lines.specs.View.{end_text, told_line};

use paper::{Marked, PaperVerdict};
use refusals::Answer;
use stack_analysis::{Accepted, Heights};
use text::{Line, push_labelled, push_word};
use walk::{Options, Rules};

/// The name of fragment k of a paper with so many entries: `entry k`, or `state` at the initialiser.
#[tactic(auto, using(crate::proofs::Fragments::names))]
pub fn name(entries: usize, k: usize) -> Line<26>
    ensures { result.items ≡ name entries k }
{
    let mut line = Line::new();
    if k < entries {
        push_labelled(&mut line, b"entry ", k as u64);
    } else {
        push_word(&mut line, b"state");
    }
    line
}

// How a fragment ends: `end M A`, or `end none`.
fn end_text(end: Option<Heights>) -> Line<46>
    ensures { result.items ≡ end_text end }
{
    let mut line = Line::new();
    match end {
        Some(heights) => {
            push_labelled(&mut line, b" end ", u64::from(heights.main));
            push_labelled(&mut line, b" ", u64::from(heights.alt));
        }
        None => push_word(&mut line, b" end none"),
    }
    line
}

// The line of an accepted fragment.
fn accepted_line(entries: usize, k: usize, fragment: Accepted<Heights>) -> Line<100>
    ensures { result.items ≡ told_line entries k fragment.peak fragment.end }
{
    let mut line = Line::new();
    push_word(&mut line, &name(entries, k));
    push_labelled(&mut line, b" peak ", u64::from(fragment.peak));
    push_word(&mut line, &end_text(fragment.end));
    push_word(&mut line, b"\n");
    line
}

/// The last line of a refused paper: `refused N at K O A B`.
#[tactic(auto, unfolding(definition::specs::Lines::refused_line))]
pub fn refused_line(entry: usize, answer: Answer) -> Line<120>
    ensures { result.items ≡ refused_line entry (numbers_of answer) }
{
    let mut line = Line::new();
    push_labelled(&mut line, b"refused ", u64::from(answer.number));
    push_labelled(&mut line, b" at ", entry as u64);
    push_labelled(&mut line, b" ", answer.offset as u64);
    push_labelled(&mut line, b" ", answer.first);
    push_labelled(&mut line, b" ", answer.second);
    push_word(&mut line, b"\n");
    line
}

// The lines of a marked paper with so many entries: 33 lines of at most 100 bytes and one of at most 120 have room in 4,096.
fn lines_of(entries: usize, marked: &Marked) -> Line<4096>
    ensures { (m : PaperMarked) (log : List ℕ) → Holds m marked.now log → result.items ≡ lines_of entries m }
{
    let mut text = Line::new();
    for (k, fragment) in marked.accepted.as_slice().iter().enumerate() {
        push_word(&mut text, &accepted_line(entries, k, *fragment));
    }
    match marked.verdict {
        Ok(_) => push_word(&mut text, b"accepted\n"),
        Err(paper) => push_word(
            &mut text,
            &refused_line(paper.entry, Err(paper.refused).into()),
        ),
    }
    text
}

/// So many bytes of text, which are printed of a paper, and zeros behind them; and the verdict that the text tells.
#[derive(Clone, Copy)]
pub struct Lines {
    pub bytes: [u8; 4096],
    pub size: usize,
    pub verdict: PaperVerdict,
    pub ghost short: { size ≤ 4096 },
    pub ghost zeros: { drop size bytes ≡ replicate (4096 - size) 0 },
}

impl Lines {
    // Those of a paper that is marked so.
    fn of(paper: &[u8], marked: Marked) -> Lines
        ensures text { (m : PaperMarked) (log : List ℕ) → Holds m marked log → take result.size result.bytes ≡ lines_of (entry_count paper.now) m }
        ensures verdict { result.verdict ≡ marked.verdict }
    {
        let text = lines_of(header::entry_count(paper), &marked);
        let size = text.len();
        let mut bytes = [0; 4096];
        bytes[..size].copy_from_slice(&text);
        Lines {
            bytes,
            size,
            verdict: marked.verdict,
        }
    }

    /// The text.
    pub fn text(&self) -> &[u8]
        ensures { result.now ≡ take self.now.size self.now.bytes }
    {
        &self.bytes[..self.size]
    }
}

/// Marks a paper by the built-in table at 244, and gives the lines that are printed of it and its verdict. Every input comes to
/// its lines.
pub fn mark_lines(paper: &[u8], log: &mut [u16]) -> Lines
    ensures text { take result.size result.bytes ≡ printed built_in paper.now log.old }
    ensures verdict { paper_of result.verdict ≡ (mark_paper built_in paper.now log.old).paper }
    ensures logged { log.new ≡ (mark_paper built_in paper.now log.old).log }
{
    Lines::of(paper, paper::mark_rows(paper, Rules::built_in(), log))
}

/// The same by a lent map and a lent limit, in a mode: 28 and then 29 before all else. Every input comes to its lines.
pub fn mark_lines_with(paper: &[u8], map: &[u8], options: Options, log: &mut [u16]) -> Lines
    ensures text { take result.size result.bytes ≡ printed_with map.now (options_of options) paper.now log.old }
    ensures verdict { paper_of result.verdict ≡ (mark_paper_with map.now (options_of options) paper.now log.old).paper }
    ensures logged { log.new ≡ (mark_paper_with map.now (options_of options) paper.now log.old).log }
{
    Lines::of(paper, paper::mark_with(paper, map, options, log))
}
