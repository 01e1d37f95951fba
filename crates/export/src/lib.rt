// The functions for C and Rust callers. Numbers pass as themselves, a slice as a pointer and then a length, an array as a
// pointer. Nothing is asked of the caller beyond that: bad input is refused with a verdict number.

#![tactic(auto)]

ghost use Rattle.std.specs.Prelude.{[], ◌∷◌, ◌≡◌, ◌+◌, ◌≤◌, length, take, drop};
ghost use Rattle.definition.specs.Lines.{printed};
ghost use Rattle.definition_listings.specs.Assembling.{assembled};
ghost use Rattle.definition_listings.specs.Listing.{listed};
ghost use Rattle.definition.specs.Papers.{limit_check, mark_paper, by_mark, display};
ghost use Rattle.definition.specs.Stacks.{built_in};
ghost use Rattle.definition_sums.specs.Sums as Sums;
ghost use Rattle.definition.specs.Walk.{analysis};
ghost use Rattle.definition.specs.Walk as Walk;
ghost use Rattle.definition_rules.specs.Maps.{analysis_with, mark_paper_with, printed_with};
ghost use Rattle.maps.specs.View.{year_map, map_size};
ghost use Rattle.log_text.specs.LogText.{log_text, log_text_with};
ghost use Rattle.reasons.specs.Reasons.{reason};
ghost use Rattle.tally.specs.View.{Gives};
ghost use Rattle.places.specs.View.{lent_options, written, verdict_numbers, end_numbers, answer_numbers, paper_numbers, sums_numbers, converted_numbers, display_start, part_numbers, tally_from, tally_numbers};

use places::{
    display_start, lent_options, paper_number, tally_from, write, write_answer, write_lines,
    write_outcome, write_paper, write_part, write_size, write_sums, write_text, write_verdict,
};

/// The analysis of a fragment from main and alt unknown items: the verdict's number, its other numbers in `out`, and a row
/// for each instruction met in `log`.
#[tactic(auto, using(places::proofs::Items::verdicts))]
#[unsafe(no_mangle)]
pub extern "C" fn listochur_analyze(
    fragment: &[u8],
    main: u32,
    alt: u32,
    log: &mut [u16],
    out: &mut [u64],
) -> u32
    ensures number { result
        ≡ (analysis built_in fragment.now main alt log.old).verdict.answer.number }
    ensures logged { log.new
        ≡ (analysis built_in fragment.now main alt log.old).log }
    ensures written { out.new
        ≡ written
        (verdict_numbers
        (analysis built_in fragment.now main alt log.old).verdict)
        out.old }
{
    let v = stack_analysis::analyze_heights(fragment, main, alt, log);
    write(v, out)
}

/// The same, and in `items` the items of the end stacks, three numbers to an item: main from bottom to top and then alt from
/// bottom to top.
#[tactic(auto, using(places::proofs::Items::verdicts))]
#[unsafe(no_mangle)]
pub extern "C" fn listochur_analyze_items(
    fragment: &[u8],
    main: u32,
    alt: u32,
    log: &mut [u16],
    items: &mut [u64],
    out: &mut [u64],
) -> u32
    ensures number { result
        ≡ (analysis built_in fragment.now main alt log.old).verdict.answer.number }
    ensures logged { log.new
        ≡ (analysis built_in fragment.now main alt log.old).log }
    ensures listed { items.new
        ≡ written
        (end_numbers
        (analysis built_in fragment.now main alt log.old).verdict.end)
        items.old }
    ensures written { out.new
        ≡ written
        (verdict_numbers
        (analysis built_in fragment.now main alt log.old).verdict)
        out.old }
{
    let v = stack_analysis::analyze(fragment, main, alt, log);
    write_verdict(&v, items, out)
}

/// The analysis of a fragment by a lent map and a lent limit, in plain mode where `mode` is 0 and else in the examined one: as
/// `listochur_analyze_items`, 28 and then 29 before all else.
#[tactic(auto, using(places::proofs::Items::verdicts))]
#[unsafe(no_mangle)]
pub extern "C" fn listochur_analyze_with(
    fragment: &[u8],
    main: u32,
    alt: u32,
    map: &[u8],
    limit: u32,
    mode: u32,
    log: &mut [u16],
    items: &mut [u64],
    out: &mut [u64],
) -> u32
    ensures number { result
        ≡ (analysis_with map.now (lent_options limit mode) fragment.now main alt log.old).verdict.answer.number }
    ensures logged { log.new
        ≡ (analysis_with map.now (lent_options limit mode) fragment.now main alt log.old).log }
    ensures listed { items.new
        ≡ written
        (end_numbers
        (analysis_with map.now (lent_options limit mode) fragment.now main alt log.old).verdict.end)
        items.old }
    ensures written { out.new
        ≡ written
        (verdict_numbers
        (analysis_with map.now (lent_options limit mode) fragment.now main alt log.old).verdict)
        out.old }
{
    let options = lent_options(limit, mode);
    let v = stack_analysis::analyze_with(fragment, main, alt, map, options, log);
    write_verdict(&v, items, out)
}

/// The map of a year, 0 the built-in one, 1 the classic one, into `map`: 260, its size, or 0 with nothing written for another year
/// or a short `map`.
#[tactic(auto, using(places::proofs::Places::rooms))]
#[unsafe(no_mangle)]
pub extern "C" fn listochur_map(year: u32, map: &mut [u8]) -> u32
    ensures size { result ≡ map_size year map.old }
    ensures written { map.new ≡ written (year_map year) map.old }
{
    match maps::write_map(year, map) {
        Some(size) => size as u32,
        None => 0,
    }
}

/// The limit check: its number, and number, offset and two figures in `out`.
#[unsafe(no_mangle)]
pub extern "C" fn listochur_check_limits(bytecode: &[u8], out: &mut [u64]) -> u32
    ensures number { result ≡ (limit_check bytecode.now).number }
    ensures written { out.new
        ≡ written (answer_numbers (limit_check bytecode.now)) out.old }
{
    let checked = limits::validate_txscript_bytecode_limits(bytecode);
    write_answer(checked.into(), out)
}

/// The marking of a paper: the verdict's number, its numbers and the entry that it is about in `out`, and the rows of all
/// fragments in `log`.
#[unsafe(no_mangle)]
pub extern "C" fn listochur_mark_paper(paper: &[u8], log: &mut [u16], out: &mut [u64]) -> u32
    ensures number { result
        ≡ (mark_paper built_in paper.now log.old).paper.verdict.answer.number }
    ensures logged { log.new ≡ (mark_paper built_in paper.now log.old).log }
    ensures written { out.new
        ≡ written
        (paper_numbers (mark_paper built_in paper.now log.old).paper)
        out.old }
{
    let v = paper::mark_paper(paper, log);
    write_paper(v, out)
}

/// The marking of a paper by a lent map and a lent limit, in a mode: as `listochur_mark_paper`, 28 and then 29 before all else.
#[unsafe(no_mangle)]
pub extern "C" fn listochur_mark_paper_with(
    paper: &[u8],
    map: &[u8],
    limit: u32,
    mode: u32,
    log: &mut [u16],
    out: &mut [u64],
) -> u32
    ensures number { result
        ≡ (mark_paper_with map.now (lent_options limit mode) paper.now log.old).paper.verdict.answer.number }
    ensures logged { log.new ≡ (mark_paper_with map.now (lent_options limit mode) paper.now log.old).log }
    ensures written { out.new
        ≡ written
        (paper_numbers (mark_paper_with map.now (lent_options limit mode) paper.now log.old).paper)
        out.old }
{
    let options = lent_options(limit, mode);
    let v = paper::mark_paper_with(paper, map, options, log);
    write_paper(v, out)
}

/// The display: the length of the part, and its start in the fragment and its length in `out`. C has no slice to take back,
/// so the part is told by these two numbers: what they cut out of the fragment is what is displayed.
#[tactic(auto, using(places::proofs::Parts::parts))]
#[unsafe(no_mangle)]
pub extern "C" fn listochur_display<'a>(
    body: &'a [u8],
    init: &'a [u8],
    offset: usize,
    mark: u32,
    out: &mut [u64],
) -> usize
    ensures size { result ≡ length (display body.now init.now offset mark) }
    ensures part { take result
        (drop (display_start body.now init.now offset mark)
        (by_mark body.now init.now mark))
        ≡ display body.now init.now offset mark }
    ensures inside { display_start body.now init.now offset mark + result
        ≤ length (by_mark body.now init.now mark) }
    ensures written { out.new
        ≡ written
        (part_numbers body.now init.now offset mark)
        out.old }
{
    let part = display::display(body, init, offset, mark);
    let size = part.len();
    let start = display_start(body, init, offset, mark);
    write_part(start, size, out);
    size
}

/// What `stackmark` prints of a paper, in `text` where it has room: the verdict's number, the size of the text in `out`, and
/// the rows of all fragments in `log`.
#[unsafe(no_mangle)]
pub extern "C" fn listochur_mark_lines(
    paper: &[u8],
    log: &mut [u16],
    text: &mut [u8],
    out: &mut [u64],
) -> u32
    ensures number { result
        ≡ (mark_paper built_in paper.now log.old).paper.verdict.answer.number }
    ensures logged { log.new ≡ (mark_paper built_in paper.now log.old).log }
    ensures printed { text.new
        ≡ written
        (printed built_in paper.now log.old)
        text.old }
    ensures written { out.new
        ≡ written
        (length (printed built_in paper.now log.old) ∷ [])
        out.old }
    ensures short { length (printed built_in paper.now log.old) ≤ 4096 }
{
    let l = lines::mark_lines(paper, log);
    write_lines(&l, text, out)
}

/// The same by a lent map and a lent limit, in a mode, 28 and then 29 before all else.
#[unsafe(no_mangle)]
pub extern "C" fn listochur_mark_lines_with(
    paper: &[u8],
    map: &[u8],
    limit: u32,
    mode: u32,
    log: &mut [u16],
    text: &mut [u8],
    out: &mut [u64],
) -> u32
    ensures number { result
        ≡ (mark_paper_with map.now (lent_options limit mode) paper.now log.old).paper.verdict.answer.number }
    ensures logged { log.new ≡ (mark_paper_with map.now (lent_options limit mode) paper.now log.old).log }
    ensures printed { text.new
        ≡ written
        (printed_with map.now (lent_options limit mode) paper.now log.old)
        text.old }
    ensures written { out.new
        ≡ written
        (length (printed_with map.now (lent_options limit mode) paper.now log.old) ∷ [])
        out.old }
    ensures short { length (printed_with map.now (lent_options limit mode) paper.now log.old) ≤ 4096 }
{
    let options = lent_options(limit, mode);
    let l = lines::mark_lines_with(paper, map, options, log);
    write_lines(&l, text, out)
}

/// What `stacklog` prints of a paper, in `text` where it has room: the verdict's number, the size of the text in `out`, and the
/// rows of all fragments in `log`.
#[tactic(auto, using(places::proofs::Places::rooms))]
#[unsafe(no_mangle)]
pub extern "C" fn listochur_log_lines(
    paper: &[u8],
    log: &mut [u16],
    text: &mut [u8],
    out: &mut [u64],
) -> u32
    ensures number { result
        ≡ (mark_paper built_in paper.now log.old).paper.verdict.answer.number }
    ensures logged { log.new ≡ (mark_paper built_in paper.now log.old).log }
    ensures printed { text.new
        ≡ written (log_text built_in paper.now log.old) text.old }
    ensures written { out.new
        ≡ written
        (length (log_text built_in paper.now log.old) ∷ [])
        out.old }
{
    let l = log_text::write_log(paper, log, text);
    write_size(l.size, out);
    paper_number(&l.verdict)
}

/// The same by a lent map and a lent limit, in a mode, 28 and then 29 before all else.
#[tactic(auto, using(places::proofs::Places::rooms))]
#[unsafe(no_mangle)]
pub extern "C" fn listochur_log_lines_with(
    paper: &[u8],
    map: &[u8],
    limit: u32,
    mode: u32,
    log: &mut [u16],
    text: &mut [u8],
    out: &mut [u64],
) -> u32
    ensures number { result
        ≡ (mark_paper_with map.now (lent_options limit mode) paper.now log.old).paper.verdict.answer.number }
    ensures logged { log.new ≡ (mark_paper_with map.now (lent_options limit mode) paper.now log.old).log }
    ensures printed { text.new
        ≡ written
        (log_text_with map.now (lent_options limit mode) paper.now log.old)
        text.old }
    ensures written { out.new
        ≡ written
        (length (log_text_with map.now (lent_options limit mode) paper.now log.old) ∷ [])
        out.old }
{
    let options = lent_options(limit, mode);
    let w = log_text::write_log_with(paper, map, options, log, text);
    write_size(w.size, out);
    paper_number(&w.verdict)
}

/// A verdict's number and figures in words, in `text` where it has room: the number, and the size of the words in `out`. A number
/// past the greatest in use has no words.
#[unsafe(no_mangle)]
pub extern "C" fn listochur_reason(
    number: u32,
    first: u64,
    second: u64,
    text: &mut [u8],
    out: &mut [u64],
) -> u32
    ensures number { result ≡ number }
    ensures printed { text.new ≡ written (reason number first second) text.old }
    ensures written { out.new ≡ written (length (reason number first second) ∷ []) out.old }
    ensures short { length (reason number first second) ≤ 80 }
{
    write_text(&reasons::reason(number, first, second), text, out);
    number
}

/// The tally of these counters, fragments, accepted, rows and greatest peak, gains one verdict, of this number, rows and
/// peak: 0 or 22, which leaves the counters unchanged.
#[unsafe(no_mangle)]
pub extern "C" fn listochur_gain(counters: &mut [u32; 4], number: u32, rows: u64, peak: u32) -> u32
    ensures answer { (v : Walk.Verdict)
        → Gives v number rows peak
        → result ≡ (Walk.gain (tally_from counters.old) v).answer.number }
    ensures gained { (v : Walk.Verdict)
        → Gives v number rows peak
        → counters.new ≡ tally_numbers (Walk.gain (tally_from counters.old) v).tally }
{
    let mut tally = tally_from(counters);
    let gained = tally.gain(number, rows as usize, peak);
    *counters = [tally.fragments, tally.accepts, tally.rows, tally.peak];
    match gained {
        Ok(()) => 0,
        Err(refusal) => refusal.number(),
    }
}

/// The sums over a sitting, verdict number and peak by turns: 0 or 23, and in `out` number, sum and count of the peaks of the
/// accepted, and how often each verdict number occurred, from 0 to the greatest in use.
#[unsafe(no_mangle)]
pub extern "C" fn listochur_sums(sitting: &[u32], out: &mut [u64]) -> u32
    ensures number { result ≡ (Sums.sums sitting.now).number }
    ensures written { out.new ≡ written (sums_numbers (Sums.sums sitting.now)) out.old }
{
    write_sums(sums::sums(sitting), out)
}

/// A listing assembled into a lent fragment: 0, 26 or 27, and number, offset and bytes written in `out`. A refusal leaves the
/// fragment as it was, and success its rest.
#[unsafe(no_mangle)]
pub extern "C" fn listochur_assemble(text: &[u8], fragment: &mut [u8], out: &mut [u64]) -> u32
    ensures number { result ≡ (assembled text.now fragment.old).number }
    ensures fragment { fragment.new ≡ (assembled text.now fragment.old).out }
    ensures written { out.new
        ≡ written
        (converted_numbers (assembled text.now fragment.old))
        out.old }
{
    write_outcome(assembling::assemble(text, fragment), out)
}

/// A fragment listed into a lent text: 0, 3 or 27, and number, offset and bytes written in `out`. A refusal leaves the text as it
/// was, and success its rest.
#[unsafe(no_mangle)]
pub extern "C" fn listochur_list(fragment: &[u8], text: &mut [u8], out: &mut [u64]) -> u32
    ensures number { result ≡ (listed fragment.now text.old).number }
    ensures text { text.new ≡ (listed fragment.now text.old).out }
    ensures written { out.new
        ≡ written (converted_numbers (listed fragment.now text.old)) out.old }
{
    write_outcome(listing::list(fragment, text), out)
}
