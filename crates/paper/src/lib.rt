// Marking a paper.

#![tactic(auto)]

ghost use Rattle.std.specs.Prelude.{List, ◌≡◌, ℕ, ◌+◌, ◌*◌, ◌≤◌, ◌<◌, min, length, IsOk};
ghost use Rattle.definition.specs.Papers.{fragments, mark_from, mark_paper, refused_paper, EachTrue};
ghost use Rattle.definition_rules.specs.Maps.{rules_of, mark_paper_with};
ghost use Rattle.definition.specs.Stacks.{built_in};
ghost use Rattle.refusals.specs.View.{refusal_of};
ghost use Rattle.walk.specs.Runs.{options_of, rules_in};
ghost use Rattle.stack_analysis.specs.View.{told, told_of, heights_of};
ghost use Rattle.paper.specs.View.{fragment_marked, paper_of, Holds};

mod accepted;

pub use accepted::AcceptedFragments;
use refusals::{Refusal, Refused};
use stack_analysis::{Accepted, Heights, Rejected, Verdict};
use walk::{Options, Rules};

/// An accepted paper: the rows written, and the greatest peak. A paper has no end stacks.
#[derive(Clone, Copy, Debug, PartialEq, Eq)]
pub struct AcceptedPaper {
    pub rows: usize,
    pub peak: u32,
}

/// A refused paper: the entry that it is about (E for the initialiser), the rows written, and why and where it is refused.
#[derive(Clone, Copy, Debug, PartialEq, Eq)]
pub struct RejectedPaper {
    pub entry: usize,
    pub rows: usize,
    pub refused: Refused,
}

/// The verdict on a paper.
pub type PaperVerdict = Result<AcceptedPaper, RejectedPaper>;

/// A marked paper: its verdict, and the fragments accepted, in their order.
#[derive(Clone, Copy)]
pub struct Marked {
    pub verdict: PaperVerdict,
    pub accepted: AcceptedFragments,
}

// Where the rows behind so many others start in a log of so many numbers: at its end where it has not so many.
fn rows_start(rows: usize, lent: usize) -> usize
    ensures { result ≡ min (3 * rows) lent }
{
    rows.saturating_mul(3).min(lent)
}

/// The verdict of fragment k, the bodies in order and then the initialiser; its rows are written behind `rows` others. 19
/// where the paper has no fragment k.
pub fn mark_fragment_rows(
    paper: &[u8],
    k: usize,
    rows: usize,
    rules: Rules,
    log: &mut [u16],
) -> Verdict<Heights>
    ensures same { told result
        ≡ told_of heights_of (fragment_marked (rules_in rules.entry) paper.now k rows log.old).verdict }
    ensures logged { log.new ≡ (fragment_marked (rules_in rules.entry) paper.now k rows log.old).log }
    ensures room { 3 * rows ≤ length log.old
        → 3 * (rows + (told result).rows) ≤ length log.old }
{
    let Some(fragment) = fragments::nth_fragment(paper, k) else {
        return Err(Refused::from(Refusal::BadHeader).into());
    };
    let from = rows_start(rows, log.len());
    stack_analysis::analyze_heights_rows(
        fragment.bytes,
        fragment.main,
        fragment.alt,
        rules,
        &mut log[from..],
    )
}

/// The verdict of fragment k, the bodies in order and then the initialiser; its rows are written behind `rows` others. 19
/// where the paper has no fragment k. By the built-in table at 244; every input comes to a verdict.
pub fn mark_fragment(paper: &[u8], k: usize, rows: usize, log: &mut [u16]) -> Verdict<Heights>
    ensures same { told result
        ≡ told_of heights_of (fragment_marked built_in paper.now k rows log.old).verdict }
    ensures logged { log.new ≡ (fragment_marked built_in paper.now k rows log.old).log }
    ensures room { 3 * rows ≤ length log.old
        → 3 * (rows + (told result).rows) ≤ length log.old }
{
    mark_fragment_rows(paper, k, rows, Rules::built_in(), log)
}

// A paper that is refused in fragment k, behind so many rows.
fn rejected(k: usize, rows: usize, fragment: Rejected) -> RejectedPaper
    requires { rows + fragment.rows < 18446744073709551616 }
    ensures { result ≡ record { entry = k; rows = rows + fragment.rows; refused = fragment.refused } }
{
    RejectedPaper {
        entry: k,
        rows: rows + fragment.rows,
        refused: fragment.refused,
    }
}

// All fragments, their rows one after another in the log.
fn mark_fragments(paper: &[u8], rules: Rules, log: &mut [u16]) -> Marked
    requires { length (fragments paper.now) ≤ 33 }
    ensures { Holds
        (mark_from (rules_in rules.entry) 0 0 0 (fragments paper.now) log.old)
        result
        log.new }
{
    let mut accepted = AcceptedFragments::new();
    let mut rows = 0;
    let mut peak = 0;
    for k in 0..header::fragment_count(paper) {
        match mark_fragment_rows(paper, k, rows, rules, log) {
            Ok(fragment) => {
                rows += fragment.rows;
                peak = fragment.peak.max(peak);
                accepted.push(fragment);
            }
            Err(fragment) => {
                let verdict = Err(rejected(k, rows, fragment));
                return Marked { verdict, accepted };
            }
        }
    }
    let verdict = Ok(AcceptedPaper { rows, peak });
    Marked { verdict, accepted }
}

/// A refusal of the paper itself, with no rows.
pub fn refused(entry: usize, refusal: Refusal) -> Marked
    ensures { (lent : List ℕ) → Holds (refused_paper entry (refusal_of refusal) lent) result lent }
{
    let verdict = Err(RejectedPaper {
        entry,
        rows: 0,
        refused: refusal.into(),
    });
    Marked {
        verdict,
        accepted: AcceptedFragments::new(),
    }
}

/// Marks a paper: 21, 19, the dispatch check of each entry, the bodies in order, then the initialiser.
pub fn mark_rows(paper: &[u8], rules: Rules, log: &mut [u16]) -> Marked
    ensures { Holds (mark_paper (rules_in rules.entry) paper.now log.old) result log.new }
{
    let length = paper.len();
    if length > 8000 {
        return refused(0, Refusal::LongPaper { length });
    }
    if !good_header::header_ok(paper) {
        return refused(0, Refusal::BadHeader);
    }
    let limit = rules.limit.items();
    match header::dispatch_check(paper, limit) {
        Ok(()) => mark_fragments(paper, rules, log),
        Err(over) => refused(
            over.entry,
            Refusal::DispatchTooLarge {
                sum: over.sum,
                limit,
            },
        ),
    }
}

/// Marks a paper by a lent map and a lent limit, in a mode: 28 and then 29 before all else.
pub fn mark_with(paper: &[u8], map: &[u8], options: Options, log: &mut [u16]) -> Marked
    ensures { Holds (mark_paper_with map.now (options_of options) paper.now log.old) result log.new }
{
    match maps::rules(map, options) {
        Ok(rules) => mark_rows(paper, rules, log),
        Err(refusal) => refused(0, refusal),
    }
}

/// The verdict on a paper by these rules.
pub fn mark_paper_rows(paper: &[u8], rules: Rules, log: &mut [u16]) -> PaperVerdict
    ensures same { paper_of result ≡ (mark_paper (rules_in rules.entry) paper.now log.old).paper }
    ensures logged { log.new ≡ (mark_paper (rules_in rules.entry) paper.now log.old).log }
    ensures replayed { IsOk result
        → EachTrue
        (rules_in rules.entry)
        0
        (fragments paper.now)
        (mark_paper (rules_in rules.entry) paper.now log.old).verdicts
        log.new }
{
    mark_rows(paper, rules, log).verdict
}

/// The verdict on a paper by the built-in table at 244. Every input comes to a verdict.
pub fn mark_paper(paper: &[u8], log: &mut [u16]) -> PaperVerdict
    ensures same { paper_of result ≡ (mark_paper built_in paper.now log.old).paper }
    ensures logged { log.new ≡ (mark_paper built_in paper.now log.old).log }
    ensures replayed { IsOk result
        → EachTrue
        built_in
        0
        (fragments paper.now)
        (mark_paper built_in paper.now log.old).verdicts
        log.new }
{
    mark_paper_rows(paper, Rules::built_in(), log)
}

/// The verdict on a paper by a lent map and a lent limit, in a mode: 28 and then 29 before all else. Every input comes to a verdict.
pub fn mark_paper_with(paper: &[u8], map: &[u8], options: Options, log: &mut [u16]) -> PaperVerdict
    ensures same { paper_of result ≡ (mark_paper_with map.now (options_of options) paper.now log.old).paper }
    ensures logged { log.new ≡ (mark_paper_with map.now (options_of options) paper.now log.old).log }
    ensures replayed { IsOk result
        → EachTrue
        (rules_of map.now (options_of options))
        0
        (fragments paper.now)
        (mark_paper_with map.now (options_of options) paper.now log.old).verdicts
        log.new }
{
    mark_with(paper, map, options, log).verdict
}
