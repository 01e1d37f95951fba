// The lines that `stacklog` prints around the rows: a function gives a line, and says which it is.
// Conditionals go by the classes of lent rows: a line is the same beside whatever options.

#![tactic(auto)]

ghost use Rattle.std.specs.Prelude.{Err, ◌≡◌, ◌+◌, ◌*◌, ◌≤◌, length};
ghost use Rattle.definition_rules.specs.Maps.{Options, rules_by};
ghost use Rattle.opcodes.specs.Classes.{rows_of};
ghost use Rattle.log_lines.specs.Log.{start, ending, accepted_line, refusal_line};
ghost use Rattle.log_lines.specs.Log.{header_line, dispatch_line, malformed_line};
ghost use Rattle.stack_analysis.specs.View.{told};
ghost use Rattle.log_lines.specs.Log.{opener, other_main, arms, verdict_line};

use log_rows::Logged;
use opcodes::Class;
use refusals::{Answer, Refusal};
use stack_analysis::{Accepted, Heights, Rejected, Verdict};
use text::{Line, push_labelled, push_word};

/// The line before the rows of fragment k of a paper.
#[tactic(auto, unfolding(crate::specs::Log::start, crate::specs::Log::start_line))]
pub fn start(paper: &[u8], k: usize) -> Line<256>
    ensures { result.items ≡ start paper.now k }
{
    let fragment = fragments::fragment_at(paper, k);
    let mut line = Line::new();
    push_word(&mut line, &lines::name(header::entry_count(paper), k));
    push_labelled(&mut line, b": length ", fragment.bytes.len() as u64);
    push_labelled(&mut line, b", from main ", u64::from(fragment.main));
    push_labelled(&mut line, b" alt ", u64::from(fragment.alt));
    push_word(&mut line, b"\n");
    line
}

// How an accepted fragment ends. `end_text` of lines says it in other words: with the words as parameters neither is shorter.
fn ending(end: Option<Heights>) -> Line<60>
    ensures { result.items ≡ ending end }
{
    let mut line = Line::new();
    match end {
        Some(heights) => {
            push_labelled(&mut line, b", end main ", u64::from(heights.main));
            push_labelled(&mut line, b" alt ", u64::from(heights.alt));
        }
        None => push_word(&mut line, b", end none"),
    }
    line
}

// The line after the rows of an accepted fragment.
#[tactic(auto, unfolding(crate::specs::Log::accepted_line))]
fn accepted_line(fragment: Accepted<Heights>) -> Line<256>
    ensures { result.items ≡ accepted_line fragment.peak fragment.end }
{
    let mut line = Line::new();
    push_labelled(&mut line, b"accepted: peak ", u64::from(fragment.peak));
    push_word(&mut line, &ending(fragment.end));
    push_word(&mut line, b"\n");
    line
}

/// The line of a refusal: what leads to it, number and word, and what more is said.
#[tactic(auto, unfolding(crate::specs::Log::refusal, crate::specs::Log::refusal_line))]
pub fn refusal_line(lead: &[u8], answer: Answer, more: &[u8]) -> Line<256>
    requires { length lead.now + length more.now ≤ 145 }
    ensures { result.items ≡ refusal_line lead.now answer.number answer.first answer.second more.now }
{
    let mut line = Line::new();
    push_word(&mut line, lead);
    push_labelled(&mut line, b"refused ", u64::from(answer.number));
    push_word(&mut line, b", ");
    let reason = reasons::reason(answer.number, answer.first, answer.second);
    push_word(&mut line, &reason);
    push_word(&mut line, more);
    push_word(&mut line, b"\n");
    line
}

/// The line of a refused header.
#[tactic(auto, unfolding(crate::specs::Log::header_line))]
pub fn header_line(paper: &[u8]) -> Line<256>
    ensures { result.items ≡ header_line paper.now }
{
    let answer = Err(Refusal::BadHeader.into()).into();
    refusal_line(b"", answer, &faults::fault_words(paper))
}

/// The line of the dispatch check: which entry, and the sum and the limit of its refusal.
#[tactic(auto, unfolding(crate::specs::Log::dispatch_line))]
pub fn dispatch_line(entry: usize, answer: Answer) -> Line<256>
    ensures { answer.number ≡ 20 → result.items ≡ dispatch_line entry answer.first answer.second }
{
    let mut lead: Line<28> = Line::new();
    push_labelled(&mut lead, b"entry ", entry as u64);
    push_word(&mut lead, b": ");
    refusal_line(&lead, answer, b"")
}

// The line of a malformed fragment.
#[tactic(auto, unfolding(crate::specs::Log::malformed_line))]
fn malformed_line(offset: usize, bytes: &[u8]) -> Line<256>
    ensures { result.items ≡ malformed_line offset bytes.now }
{
    let mut more: Line<40> = Line::new();
    push_labelled(&mut more, b" at ", offset as u64);
    push_word(&mut more, b":");
    push_word(&mut more, &log_rows::instruction(bytes));
    refusal_line(b"", Err(Refusal::Malformed.into()).into(), &more)
}

// The row of the ELSE, or where there is none the IF, of the conditional that is open behind `count` rows from row `from` on.
#[tactic(auto, using(crate::proofs::Conditionals::opening))]
fn opener(fragment: Logged, from: usize, count: usize) -> usize
    requires { 3 * (from + count) ≤ length fragment.log.now }
    ensures same { (options : Options)
        → result
        ≡ opener
        (rules_by (rows_of fragment.entry.classes) options)
        fragment.entry.bytes.now
        fragment.entry.log.now
        from
        count
        0 }
    ensures within { result ≤ from + count }
{
    let mut inner: usize = 0;
    for n in (0..count).rev() {
        let row = from + n;
        match fragment.class_of_row(row) {
            Class::EndIf => inner += 1,
            Class::If | Class::NotIf => {
                if inner == 0 {
                    return row;
                }
                inner -= 1;
            }
            Class::Else => {
                if inner == 0 {
                    return row;
                }
            }
            _ => {}
        }
    }
    from
}

// The main height of the other arm: IF pops one item.
#[tactic(auto, unfolding(crate::specs::Log::other_main))]
fn other_main(fragment: Logged, row: usize) -> u16
    requires { 3 * row + 3 ≤ length fragment.log.now }
    ensures { (options : Options)
        → result
        ≡ other_main
        (rules_by (rows_of fragment.entry.classes) options)
        fragment.entry.bytes.now
        fragment.entry.log.now
        row }
{
    let main = log_rows::row_at(fragment.log, row).main;
    let popped = log_rows::opens(fragment.class_of_row(row));
    main.saturating_sub(u16::from(popped))
}

// Both arms, where `count` rows come before ENDIF's.
#[tactic(auto, unfolding(crate::specs::Log::arms))]
fn arms(fragment: Logged, from: usize, count: usize) -> Line<120>
    requires { 3 * (from + count) + 3 ≤ length fragment.log.now }
    ensures { (options : Options)
        → result.items
        ≡ arms
        (rules_by (rows_of fragment.entry.classes) options)
        fragment.entry.bytes.now
        fragment.entry.log.now
        from
        count }
{
    let other = opener(fragment, from, count);
    let main = other_main(fragment, other);
    let one = log_rows::row_at(fragment.log, from + count);
    let mut line = Line::new();
    push_labelled(&mut line, b": main ", u64::from(one.main));
    push_labelled(&mut line, b" alt ", u64::from(one.alt));
    push_labelled(&mut line, b" against main ", u64::from(main));
    push_labelled(
        &mut line,
        b" alt ",
        u64::from(log_rows::row_at(fragment.log, other).alt),
    );
    line
}

// That of a refused fragment.
#[tactic(auto, using(crate::proofs::Verdicts::refusals), unfolding(crate::specs::Log::verdict_line))]
fn rejected_line(fragment: Logged, from: usize, rejected: Rejected) -> Line<256>
    requires { 3 * (from + rejected.rows) ≤ length fragment.log.now }
    ensures { (options : Options)
        → result.items
        ≡ verdict_line
        (rules_by (rows_of fragment.entry.classes) options)
        fragment.entry.bytes.now
        fragment.entry.log.now
        from
        (told {E = Heights} (Err rejected)) }
{
    let Rejected { rows, refused } = rejected;
    let answer = Answer::from(Err(refused));
    let offset = refused.offset;
    match refused.refusal {
        Refusal::Malformed => malformed_line(
            offset,
            display::display(fragment.bytes, fragment.bytes, offset, 0),
        ),
        _ if rows == 0 => refusal_line(b"", answer, b""),
        Refusal::ArmsDiffer => { refusal_line(b"     ^ ", answer, &arms(fragment, from, rows - 1)) }
        _ => refusal_line(b"     ^ ", answer, b""),
    }
}

/// The line after the rows of a fragment, the first of them row `from`: 1 to 4 come before any row.
#[tactic(auto, unfolding(crate::specs::Log::verdict_line))]
pub fn verdict_line(fragment: Logged, from: usize, verdict: Verdict<Heights>) -> Line<256>
    requires { 3 * (from + (told verdict).rows) ≤ length fragment.log.now }
    ensures { (options : Options)
        → result.items
        ≡ verdict_line
        (rules_by (rows_of fragment.entry.classes) options)
        fragment.entry.bytes.now
        fragment.entry.log.now
        from
        (told verdict) }
{
    match verdict {
        Ok(accepted) => accepted_line(accepted),
        Err(rejected) => rejected_line(fragment, from, rejected),
    }
}
