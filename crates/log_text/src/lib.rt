// All that `stacklog` prints of a paper, written into lent bytes; also by a lent map, limit and mode.

#![tactic(auto)]

ghost use Rattle.std.specs.Prelude.{[], Err, ◌≡◌, map, ◌+◌, ◌*◌, ◌≤◌, length};
ghost use Rattle.definition.specs.Papers.{PaperMarked};
ghost use Rattle.definition_rules.specs.Maps.{rules_by};
ghost use Rattle.definition_rules.specs.Maps as Maps;
ghost use Rattle.opcodes.specs.Classes.{rows_of as class_rows};
ghost use Rattle.walk.specs.Runs.{options_of, rules_in};
ghost use Rattle.text.specs.View.{Puts};
ghost use Rattle.stack_analysis.specs.View.{told};
ghost use Rattle.paper.specs.View.{told_accepted, rows_of, Holds};
ghost use Rattle.log_text.specs.LogText.{blocks, refused, log_of};
ghost use Rattle.log_text.specs.View.{Tells, LogsBy, Logs, LogsWith};

use log_rows::Logged;
use opcodes::Classes;
use paper::{Marked, PaperVerdict};
use refusals::{Answer, Refusal};
use stack_analysis::{Accepted, Heights, Rejected};
use text::Lent;
use walk::{Options, Rules};

/// The verdict on the paper, and the size of the text.
#[derive(Clone, Copy, Debug, PartialEq, Eq)]
pub struct LogText {
    pub verdict: PaperVerdict,
    pub size: usize,
}

// Puts the fragments accepted; the next row.
#[tactic(auto, using(crate::proofs::Blocks::blockings))]
fn put_blocks(out: &mut Lent, paper: Logged, accepted: &[Accepted<Heights>]) -> usize
    requires { 3 * rows_of (map told_accepted accepted.now) ≤ length paper.log.now }
    ensures same { (options : Maps.Options)
        → Puts
        out.old
        (blocks
        (rules_by (class_rows paper.entry.classes) options)
        paper.entry.bytes.now
        paper.entry.log.now
        0
        0
        (map told_accepted accepted.now))
        out.new }
    ensures rows { result ≡ rows_of (map told_accepted accepted.now) }
    ensures near { out.new.size ≤ out.old.size + 256 * result + 1024 * length accepted.now }
{
    let mut from = 0;
    for (k, &fragment) in accepted.iter().enumerate() {
        log_blocks::put_block(out, paper, k, from, Ok(fragment));
        out.put(b"\n");
        from += fragment.rows;
    }
    from
}

// Puts what was refused.
fn put_refused(out: &mut Lent, paper: Logged, entry: usize, from: usize, rejected: Rejected)
    requires { 3 * (from + rejected.rows) ≤ length paper.log.now }
    ensures same { (options : Maps.Options)
        → Puts
        out.old
        (refused
        (rules_by (class_rows paper.entry.classes) options)
        paper.entry.bytes.now
        paper.entry.log.now
        entry
        from
        (told {E = Heights} (Err rejected)))
        out.new }
    ensures near { out.new.size ≤ out.old.size + 256 * (rejected.rows + 3) }
{
    let answer = Answer::from(Err(rejected.refused));
    match rejected.refused.refusal {
        Refusal::LongPaper { .. } | Refusal::BadMap | Refusal::BadLimit => {
            out.put(&log_lines::refusal_line(b"", answer, b""))
        }
        Refusal::BadHeader => out.put(&log_lines::header_line(paper.bytes)),
        Refusal::DispatchTooLarge { .. } => out.put(&log_lines::dispatch_line(entry, answer)),
        _ => log_blocks::put_block(out, paper, entry, from, Err(rejected)),
    }
}

// Puts all of a marked paper, of at most 330,000 rows.
#[tactic(auto, using(crate::proofs::Texts::rows_put))]
fn put_log(out: &mut Lent, paper: Logged, marked: &Marked)
    requires { (m : PaperMarked) × Holds m marked.now paper.log.now }
    ensures same { (options : Maps.Options) (m : PaperMarked)
        → Holds m marked.now paper.entry.log.now
        → Puts
        out.old
        (log_of (rules_by (class_rows paper.entry.classes) options) paper.entry.bytes.now m)
        out.new }
    ensures near { out.new.size ≤ out.old.size + 100000000 }
{
    let from = put_blocks(out, paper, marked.accepted.as_slice());
    match marked.verdict {
        Ok(_) => out.put(b"accepted\n"),
        Err(last) => {
            let refused = last.refused;
            let rows = last.rows - from;
            put_refused(out, paper, last.entry, from, Rejected { rows, refused });
            out.put(b"\n");
            out.put(&lines::refused_line(last.entry, Err(refused).into()));
        }
    }
}

// Counts what is printed of a marked paper, and writes that where there is room.
fn write_marked<'a>(
    bytes: &'a [u8],
    log: &'a [u16],
    classes: Classes<'a>,
    marked: &Marked,
    text: &mut [u8],
) -> LogText
    requires { (m : PaperMarked) × Holds m marked.now log.now }
    ensures { (options : Maps.Options) (m : PaperMarked)
        → Holds m marked.now log.now
        → Tells
        m.paper
        (log_of (rules_by (class_rows classes.entry) options) bytes.now m)
        text.old
        result
        text.new }
{
    let paper = Logged {
        bytes,
        log,
        classes,
    };
    let verdict = marked.verdict;
    let mut counted = Lent::new(&mut []);
    put_log(&mut counted, paper, marked);
    let size = counted.size();
    if size <= text.len() {
        put_log(&mut Lent::new(text), paper, marked);
    }
    LogText { verdict, size }
}

/// Marks a paper by these rules, counts what is printed of it, and writes that where there is room.
pub fn write_log_rows(paper: &[u8], rules: Rules, log: &mut [u16], text: &mut [u8]) -> LogText
    ensures { LogsBy
        (rules_in rules.entry)
        paper.now
        log.old
        text.old
        result
        log.new
        text.new }
{
    let marked = paper::mark_rows(paper, rules, log);
    write_marked(paper, log, rules.classes, &marked, text)
}

/// The same by the built-in table at 244. Every input comes to its text.
#[tactic(auto, using(crate::proofs::Texts::same_rules))]
pub fn write_log(paper: &[u8], log: &mut [u16], text: &mut [u8]) -> LogText
    ensures { Logs
        paper.now
        log.old
        text.old
        result
        log.new
        text.new }
{
    write_log_rows(paper, Rules::built_in(), log, text)
}

/// The same by a lent map and a lent limit, in a mode: 28 and then 29 before all else. Every input comes to its text. The text of
/// 28 and 29 has no row, so that no class is read: the built-in table stands for the map.
pub fn write_log_with(
    paper: &[u8],
    map: &[u8],
    options: Options,
    log: &mut [u16],
    text: &mut [u8],
) -> LogText
    ensures { LogsWith
        map.now
        (options_of options)
        paper.now
        log.old
        text.old
        result
        log.new
        text.new }
{
    match maps::rules(map, options) {
        Ok(rules) => write_log_rows(paper, rules, log, text),
        Err(refusal) => {
            let marked = paper::refused(0, refusal);
            write_marked(paper, log, Classes::built_in(), &marked, text)
        }
    }
}
