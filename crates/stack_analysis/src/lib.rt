// The analysis of a fragment.

#![tactic(auto)]

ghost use Rattle.std.specs.Prelude.{List, ◌≡◌, ℕ, ◌+◌, ◌≤◌, length, IsOk};
ghost use Rattle.definition.specs.Stacks.{Rules, built_in};
ghost use Rattle.definition.specs.Decoding.{decode, instructions};
ghost use Rattle.definition.specs.Replay.{Demand3};
ghost use Rattle.definition.specs.Walk.{unknowns, analysis};
ghost use Rattle.definition_rules.specs.Maps.{rules_of, analysis_with};
ghost use Rattle.ends.specs.View.{packed_end};
ghost use Rattle.stack.specs.View.{view};
ghost use Rattle.walk.specs.Runs.{options_of, rules_in};
ghost use Rattle.arms.specs.Walkers.{concluded};
ghost use Rattle.stack_analysis.specs.View.{told, told_of, heights_of, verdict_in, verdict_of, EndWithin};
ghost use Rattle.stack_analysis.specs.Entry.{Starts, Begins};

use arms::arm;
use ends::EndStacks;
use refusals::{Refusal, Refused};
use stack::{Limit, Stacks};
use walk::{ArmEnd, Options, Place, Walk};

/// An accepted fragment: the rows written, the peak, and its end, where not every run returns before it.
#[derive(Clone, Copy, Debug, PartialEq, Eq, Default)]
pub struct Accepted<E> {
    pub rows: usize,
    pub peak: u32,
    pub end: Option<E>,
}

/// A refused fragment: the rows written, and why and where it is refused.
#[derive(Clone, Copy, Debug, PartialEq, Eq)]
pub struct Rejected {
    pub rows: usize,
    pub refused: Refused,
}

/// The verdict on a fragment, with its end in the form `E`.
pub type Verdict<E> = Result<Accepted<E>, Rejected>;

/// The heights of an end, for callers that read no item.
#[derive(Clone, Copy, Debug, PartialEq, Eq, Default)]
pub struct Heights {
    pub main: u32,
    pub alt: u32,
}

impl From<Refused> for Rejected {
    ghost from_gives = { λ refused rejected. rejected ≡ record { rows = 0; refused = refused } };

    fn from(refused: Refused) -> Rejected {
        Rejected { rows: 0, refused }
    }
}

// The verdict where a walk has ended with no conditional open.
fn conclude(w: Walk, ended: Result<ArmEnd, Refusal>) -> Verdict<Stacks>
    ensures { verdict_in view result ≡ concluded ended w }
{
    let rows = w.place.rows;
    let refusal = match ended {
        Ok(ArmEnd::End) => {
            return Ok(Accepted {
                rows,
                peak: w.peak,
                end: w.stacks,
            });
        }
        Ok(ArmEnd::Else) => Refusal::StrayElse,
        Ok(ArmEnd::Endif) => Refusal::StrayEndif,
        Err(refusal) => refusal,
    };
    let offset = w.place.last;
    Err(Rejected {
        rows,
        refused: Refused { offset, refusal },
    })
}

// The tests before the walk, in their order; so many numbers of the log are lent. Here and in the entries main and alt are two
// numbers, as the C interface has them: no fact holds of the pair before it is tested here.
fn early(fragment: &[u8], main: u32, alt: u32, limit: Limit, lent: usize) -> Result<(), Refused>
    ensures { (R : Rules) (log : List ℕ)
        → R.limit ≡ limit.items → length log ≡ lent → Starts R fragment.now main alt log result }
{
    let length = fragment.len();
    if length > 10000 {
        return Err(Refusal::LongFragment { length }.into());
    }
    let sum = u64::from(main) + u64::from(alt);
    let limit = limit.items();
    if sum > u64::from(limit) {
        return Err(Refusal::StartTooLarge { sum, limit }.into());
    }
    let needed = 3 * decode::count_instructions(fragment)?;
    if needed > lent {
        return Err(Refusal::ShortLog {
            needed: needed as u64,
            lent,
        }
        .into());
    }
    Ok(())
}

// Where the walk of a fragment begins: at its first instruction, with so many unknown items.
fn start(main: u32, alt: u32) -> Walk
    requires { main + alt ≤ 244 }
    ensures { Begins main alt result }
{
    Walk {
        stacks: Some(Stacks::new(main, alt)),
        place: Place {
            at: 0,
            last: 0,
            rows: 0,
        },
        peak: main + alt,
    }
}

// The analysis of a fragment by these rules, with the stacks that its walk ends with.
fn analyze_stacks(
    fragment: &[u8],
    main: u32,
    alt: u32,
    rules: walk::Rules,
    log: &mut [u16],
) -> Verdict<Stacks>
    ensures same { verdict_in view result ≡ (analysis (rules_in rules.entry) fragment.now main alt log.old).verdict }
    ensures logged { log.new ≡ (analysis (rules_in rules.entry) fragment.now main alt log.old).log }
{
    early(fragment, main, alt, rules.limit, log.len())?;
    let mut w = start(main, alt);
    let ended = arm(fragment, log, rules, &mut w, 0);
    conclude(w, ended)
}

/// The analysis of a fragment by these rules, from main and alt unknown items; one row of the lent log is written for each
/// instruction met.
pub fn analyze_rows(
    fragment: &[u8],
    main: u32,
    alt: u32,
    rules: walk::Rules,
    log: &mut [u16],
) -> Verdict<EndStacks>
    ensures same { told result
        ≡ told_of packed_end (analysis (rules_in rules.entry) fragment.now main alt log.old).verdict }
    ensures shows { verdict_of result
        ≡ (analysis (rules_in rules.entry) fragment.now main alt log.old).verdict }
    ensures within { EndWithin result }
    ensures logged { log.new
        ≡ (analysis (rules_in rules.entry) fragment.now main alt log.old).log }
    ensures replayed { IsOk result
        → Demand3
        (rules_in rules.entry)
        (instructions (decode fragment.now))
        (unknowns main alt)
        (record { verdict = verdict_of result; log = log.new }) }
{
    let Accepted { rows, peak, end } = analyze_stacks(fragment, main, alt, rules, log)?;
    let end = end.map(|stacks| EndStacks::of(&stacks));
    Ok(Accepted { rows, peak, end })
}

/// The same with the heights of the end in place of the end stacks, for callers that read no item.
// Beside `analyze_rows`: with the form of the end as a trait both would still stand, since that one promises more.
pub fn analyze_heights_rows(
    fragment: &[u8],
    main: u32,
    alt: u32,
    rules: walk::Rules,
    log: &mut [u16],
) -> Verdict<Heights>
    ensures same { told result
        ≡ told_of heights_of (analysis (rules_in rules.entry) fragment.now main alt log.old).verdict }
    ensures logged { log.new
        ≡ (analysis (rules_in rules.entry) fragment.now main alt log.old).log }
{
    let Accepted { rows, peak, end } = analyze_stacks(fragment, main, alt, rules, log)?;
    let end = end.map(|stacks| Heights {
        main: stacks.mains,
        alt: stacks.alts,
    });
    Ok(Accepted { rows, peak, end })
}

/// The analysis of a fragment from main and alt unknown items, by the built-in table at 244; one row of the lent log is written
/// for each instruction met. Every input comes to a verdict.
pub fn analyze(fragment: &[u8], main: u32, alt: u32, log: &mut [u16]) -> Verdict<EndStacks>
    ensures same { told result ≡ told_of packed_end (analysis built_in fragment.now main alt log.old).verdict }
    ensures shows { verdict_of result ≡ (analysis built_in fragment.now main alt log.old).verdict }
    ensures within { EndWithin result }
    ensures logged { log.new ≡ (analysis built_in fragment.now main alt log.old).log }
    ensures replayed { IsOk result
        → Demand3
        built_in
        (instructions (decode fragment.now))
        (unknowns main alt)
        (record { verdict = verdict_of result; log = log.new }) }
{
    analyze_rows(fragment, main, alt, walk::Rules::built_in(), log)
}

/// The same with the heights of the end in place of the end stacks, for callers that read no item.
pub fn analyze_heights(fragment: &[u8], main: u32, alt: u32, log: &mut [u16]) -> Verdict<Heights>
    ensures same { told result ≡ told_of heights_of (analysis built_in fragment.now main alt log.old).verdict }
    ensures logged { log.new ≡ (analysis built_in fragment.now main alt log.old).log }
{
    analyze_heights_rows(fragment, main, alt, walk::Rules::built_in(), log)
}

/// The analysis of a fragment by a lent map and a lent limit, in a mode: 28 and then 29 before all else.
pub fn analyze_with(
    fragment: &[u8],
    main: u32,
    alt: u32,
    map: &[u8],
    options: Options,
    log: &mut [u16],
) -> Verdict<EndStacks>
    ensures same { told result
        ≡ told_of packed_end (analysis_with map.now (options_of options) fragment.now main alt log.old).verdict }
    ensures shows { verdict_of result
        ≡ (analysis_with map.now (options_of options) fragment.now main alt log.old).verdict }
    ensures within { EndWithin result }
    ensures logged { log.new
        ≡ (analysis_with map.now (options_of options) fragment.now main alt log.old).log }
    ensures replayed { IsOk result
        → Demand3
        (rules_of map.now (options_of options))
        (instructions (decode fragment.now))
        (unknowns main alt)
        (record { verdict = verdict_of result; log = log.new }) }
{
    match maps::rules(map, options) {
        Ok(rules) => analyze_rows(fragment, main, alt, rules, log),
        Err(refusal) => Err(Refused::from(refusal).into()),
    }
}
