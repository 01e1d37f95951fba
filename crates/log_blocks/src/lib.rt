// What `stacklog` prints of a fragment, put into lent bytes. Conditionals go by the classes of lent rows: what is put is the same
// beside whatever options. A line has at most 256 bytes, which bounds the size of what is put.

#![tactic(auto)]

ghost use Rattle.std.specs.Prelude.{◌≡◌, ◌+◌, ◌*◌, ◌≤◌, length};
ghost use Rattle.definition_rules.specs.Maps.{Options, rules_by};
ghost use Rattle.opcodes.specs.Classes.{rows_of};
ghost use Rattle.log_rows.specs.Rows.{greatest, rows_from, rows};
ghost use Rattle.stack_analysis.specs.View.{told};
ghost use Rattle.log_blocks.specs.Blocks.{block};
ghost use Rattle.text.specs.View.{Puts};

use log_rows::Logged;
use stack_analysis::{Heights, Verdict};
use text::Lent;

// Puts `count` rows, the first of them row `from`.
#[tactic(auto, using(crate::proofs::Rows::rowings))]
fn put_rows(out: &mut Lent, fragment: Logged, scale: u32, from: usize, count: usize)
    requires in_log { 3 * (from + count) ≤ length fragment.log.now }
    requires le_scale { (1 ≤ scale) × (greatest fragment.log.now from count ≤ scale) }
    ensures same { (options : Options)
        → Puts
        out.old
        (rows_from
        (rules_by (rows_of fragment.entry.classes) options)
        fragment.entry.bytes.now
        fragment.entry.log.now
        scale
        0
        from
        count)
        out.new }
    ensures near { out.new.size ≤ out.old.size + 256 * count }
{
    let mut depth = 0;
    for j in from..from + count {
        out.put(&fragment.row(scale, depth, j));
        depth = log_rows::depth_behind(fragment.class_of_row(j), depth);
    }
}

// Puts the rows of a fragment under their heading, nothing where it has none.
#[tactic(auto, using(crate::proofs::Rows::scales))]
fn put_table(out: &mut Lent, fragment: Logged, peak: u32, from: usize, count: usize)
    requires { 3 * (from + count) ≤ length fragment.log.now }
    ensures same { (options : Options)
        → Puts
        out.old
        (rows
        (rules_by (rows_of fragment.entry.classes) options)
        fragment.entry.bytes.now
        fragment.entry.log.now
        peak
        from
        count)
        out.new }
    ensures near { out.new.size ≤ out.old.size + 256 * (count + 1) }
{
    if count > 0 {
        let scale = log_rows::scale_of(peak, fragment.log, from, count);
        out.put(&log_rows::heading(scale));
        put_rows(out, fragment, scale, from, count);
    }
}

// The rows of a fragment, and its peak: 0 where it is refused.
fn rows_and_peak(verdict: Verdict<Heights>) -> (usize, u32)
    ensures { result ≡ ((told verdict).rows, (told verdict).peak) }
{
    match verdict {
        Ok(accepted) => (accepted.rows, accepted.peak),
        Err(rejected) => (rejected.rows, 0),
    }
}

/// Puts fragment k of a paper, its first row row `from` of the log.
pub fn put_block(out: &mut Lent, paper: Logged, k: usize, from: usize, verdict: Verdict<Heights>)
    requires { 3 * (from + (told verdict).rows) ≤ length paper.log.now }
    ensures same { (options : Options)
        → Puts
        out.old
        (block
        (rules_by (rows_of paper.entry.classes) options)
        paper.entry.bytes.now
        paper.entry.log.now
        k
        from
        (told verdict))
        out.new }
    ensures near { out.new.size ≤ out.old.size + 256 * ((told verdict).rows + 3) }
{
    let bytes = fragments::fragment_bytes(paper.bytes, k);
    let fragment = Logged { bytes, ..paper };
    let (rows, peak) = rows_and_peak(verdict);
    out.put(&log_lines::start(paper.bytes, k));
    put_table(out, fragment, peak, from, rows);
    out.put(&log_lines::verdict_line(fragment, from, verdict));
}
