// How answers are put into the places that a caller in another language lends.

#![tactic(auto)]

ghost use Rattle.std.specs.Prelude.{Some, [], ◌∷◌, ◌≡◌, ◌+◌, ◌≤◌, min, length, take};
ghost use Rattle.assembling.specs.View.{converted_of};
ghost use Rattle.definition.specs.Basics.{Bytes};
ghost use Rattle.paper.specs.View.{paper_of};
ghost use Rattle.refusals.specs.View.{numbers_of};
ghost use Rattle.sums.specs.View.{sums_of};
ghost use Rattle.tally.specs.View.{tally_of};
ghost use Rattle.walk.specs.Runs.{options_of};
ghost use Rattle.places.specs.View.{lent_options, written, answer_numbers, paper_numbers, sums_numbers, converted_numbers, display_start, tally_from};
ghost use Rattle.places.specs.Parts.{value_numbers, heights_numbers, told_numbers, in_heights, struct_numbers, ends_numbers};
ghost use Rattle.stack_analysis.specs.View.{told, EndWithin};

use decode::Value;
use ends::EndStacks;
use lines::Lines;
use paper::{AcceptedPaper, PaperVerdict, RejectedPaper};
use refusals::{Answer, Refusal, Refused};
use stack_analysis::{Accepted, Heights, Rejected, Verdict};
use sums::SittingSums;
use tally::Tally;
use walk::Options;

/// Values into the first of the lent places, where there are that many: the rest stays as lent, and all of it where there are
/// fewer.
#[tactic(auto, using(crate::proofs::Places::values))]
pub fn write_values<T: Copy>(values: &[T], lent: &mut [T])
    ensures { lent.new ≡ written values.now lent.old }
{
    if values.len() <= lent.len() {
        lent[..values.len()].copy_from_slice(values);
    }
}

// Whether there is an end, 1 or 0, and the heights of its main and alt.
fn end_numbers(end: Option<Heights>) -> [u64; 3]
    ensures { result ≡ heights_numbers end }
{
    match end {
        Some(heights) => [1, u64::from(heights.main), u64::from(heights.alt)],
        None => [0, 0, 0],
    }
}

// The nine numbers of a verdict: number, offset, two figures, rows, peak, whether there is an end, and the heights of its main
// and alt.
fn verdict_numbers(v: Verdict<Heights>) -> [u64; 9]
    ensures { result ≡ told_numbers (told v) }
{
    match v {
        Ok(Accepted { rows, peak, end }) => {
            let [ended, main, alt] = end_numbers(end);
            [0, 0, 0, 0, rows as u64, u64::from(peak), ended, main, alt]
        }
        Err(Rejected { rows, refused }) => {
            let a = Answer::from(Err(refused));
            let number = u64::from(a.number);
            [
                number,
                a.offset as u64,
                a.first,
                a.second,
                rows as u64,
                0,
                0,
                0,
                0,
            ]
        }
    }
}

/// The verdict's numbers into the lent places, where there are nine of them: number, offset, two figures, rows, peak,
/// whether there is an end (1 or 0), and the heights of its main and alt; and its number.
pub fn write(v: Verdict<Heights>, out: &mut [u64]) -> u32
    ensures number { result ≡ (told v).answer.number }
    ensures out { out.new ≡ written (told_numbers (told v)) out.old }
{
    write_values(&verdict_numbers(v), out);
    match v {
        Ok(_) => 0,
        Err(r) => r.refused.refusal.number(),
    }
}

// The numbers of an item: its length, 255 where it is unknown; its bytes as one number, 0 where it is unknown; its mark, which is 0.
fn item_numbers(item: Value) -> [u64; 3]
    ensures { result ≡ value_numbers item }
{
    match item {
        Value::Unknown => [255, 0, 0],
        Value::Exact { len, bytes } => [u64::from(len), bytes, 0],
    }
}

/// The numbers of the items of end stacks into the lent places, where there are three of them to an item.
#[tactic(auto, using(crate::proofs::Items::listings))]
pub fn write_items(e: &EndStacks, items: &mut [u64])
    requires { e.now.main + e.now.alt ≤ 244 }
    ensures { items.new ≡ written (struct_numbers e.now) items.old }
{
    let count = (e.main + e.alt) as usize;
    if items.len() < 3 * count {
        return;
    }
    for (k, &item) in e.items[..count].iter().enumerate() {
        items[3 * k..3 * k + 3].copy_from_slice(&item_numbers(item));
    }
}

// The numbers of the items of an end into the lent places, none where there is no end.
#[tactic(auto, using(crate::proofs::Places::none_written))]
fn write_end(end: &Option<EndStacks>, items: &mut [u64])
    requires { (e : _) → end.now ≡ Some e → e.main + e.alt ≤ 244 }
    ensures { items.new ≡ written (ends_numbers end.now) items.old }
{
    if let Some(e) = end {
        write_items(e, items);
    }
}

/// A verdict with its end stacks: the items of the end into `items`, the verdict's numbers into `out`, and its number.
#[tactic(auto, using(crate::proofs::Places::none_written))]
pub fn write_verdict(v: &Verdict<EndStacks>, items: &mut [u64], out: &mut [u64]) -> u32
    requires { EndWithin v.now }
    ensures number { result ≡ (told v.now).answer.number }
    ensures items { items.new ≡ written (ends_numbers (told v.now).end) items.old }
    ensures out { out.new ≡ written (told_numbers (in_heights (told v.now))) out.old }
{
    match v {
        Ok(Accepted { rows, peak, end }) => {
            write_end(end, items);
            let heights = end.as_ref().map(|e| Heights {
                main: e.main,
                alt: e.alt,
            });
            let accepted = Accepted {
                rows: *rows,
                peak: *peak,
                end: heights,
            };
            write(Ok(accepted), out)
        }
        Err(rejected) => write(Err(*rejected), out),
    }
}

/// An answer into the lent places, where there are four of them, number, offset and two figures; and its number.
pub fn write_answer(a: Answer, out: &mut [u64]) -> u32
    ensures number { result ≡ a.number }
    ensures out { out.new ≡ written (answer_numbers (numbers_of a)) out.old }
{
    write_values(
        &[u64::from(a.number), a.offset as u64, a.first, a.second],
        out,
    );
    a.number
}

// The seven numbers of a verdict on a paper: number, entry, offset, two figures, rows, peak.
#[tactic(auto, unfolding(paper::specs::View::paper_of))]
fn paper_numbers(p: PaperVerdict) -> [u64; 7]
    ensures { result ≡ paper_numbers (paper_of p) }
{
    match p {
        Ok(AcceptedPaper { rows, peak }) => [0, 0, 0, 0, 0, rows as u64, u64::from(peak)],
        Err(
            RejectedPaper {
                entry,
                rows,
                refused,
            },
        ) => {
            let answer = Answer::from(Err(refused));
            let number = u64::from(answer.number);
            [
                number,
                entry as u64,
                answer.offset as u64,
                answer.first,
                answer.second,
                rows as u64,
                0,
            ]
        }
    }
}

/// The numbers of a verdict on a paper into the lent places, where there are seven of them: number, entry, offset, two
/// figures, rows, peak; and its number.
pub fn write_paper(p: PaperVerdict, out: &mut [u64]) -> u32
    ensures number { result ≡ (paper_of p).verdict.answer.number }
    ensures out { out.new ≡ written (paper_numbers (paper_of p)) out.old }
{
    write_values(&paper_numbers(p), out);
    paper_number(&p)
}

/// A part's start and length into the lent places, where there are two of them.
pub fn write_part(start: usize, size: usize, out: &mut [u64])
    ensures { out.new ≡ written (start ∷ size ∷ []) out.old }
{
    write_values(&[start as u64, size as u64], out);
}

/// A text's size into the lent places, where there is one.
pub fn write_size(size: usize, out: &mut [u64])
    ensures { out.new ≡ written (size ∷ []) out.old }
{
    write_values(&[size as u64], out);
}

/// A text into `text`, and its size into `out`.
pub fn write_text(bytes: &[u8], text: &mut [u8], out: &mut [u64])
    ensures text { text.new ≡ written bytes.now text.old }
    ensures out { out.new ≡ written (length bytes.now ∷ []) out.old }
{
    write_values(bytes, text);
    write_size(bytes.len(), out);
}

/// The number of a verdict on a paper.
#[tactic(auto, unfolding(paper::specs::View::paper_of))]
pub fn paper_number(p: &PaperVerdict) -> u32
    ensures { result ≡ (paper_of p.now).verdict.answer.number }
{
    match p {
        Ok(_) => 0,
        Err(rejected) => rejected.refused.refusal.number(),
    }
}

/// The lines of a paper: the text into `text`, its size into `out`, and the verdict's number.
pub fn write_lines(l: &Lines, text: &mut [u8], out: &mut [u64]) -> u32
    ensures number { result ≡ (paper_of l.now.verdict).verdict.answer.number }
    ensures text { text.new ≡ written (take l.now.size l.now.bytes) text.old }
    ensures out { out.new ≡ written (l.now.size ∷ []) out.old }
{
    write_text(l.text(), text, out);
    paper_number(&l.verdict)
}

// A number and the sums over a sitting into the lent places, where there are that many of them.
#[tactic(auto, using(crate::proofs::Sittings::sittings))]
fn write_sitting(number: u32, s: SittingSums, out: &mut [u64])
    ensures { out.new ≡ written (number ∷ s.sum ∷ s.count ∷ s.counts) out.old }
{
    if out.len() < 3 + sums::NUMBERS {
        return;
    }
    out[0] = u64::from(number);
    out[1] = s.sum;
    out[2] = u64::from(s.count);
    for (k, &count) in s.counts.iter().enumerate() {
        out[3 + k] = u64::from(count);
    }
}

/// The numbers of the sums over a sitting into the lent places, where there are that many of them: number, sum, count, and how
/// often each verdict number occurred, all but the number 0 where the sitting is refused; and the number.
pub fn write_sums(r: Result<SittingSums, Refusal>, out: &mut [u64]) -> u32
    ensures number { result ≡ (sums_of r).number }
    ensures out { out.new ≡ written (sums_numbers (sums_of r)) out.old }
{
    let zeros = SittingSums {
        counts: [0; sums::NUMBERS],
        sum: 0,
        count: 0,
    };
    let (number, s) = match r {
        Ok(s) => (0, s),
        Err(refusal) => (refusal.number(), zeros),
    };
    write_sitting(number, s, out);
    number
}

/// The numbers of an assembler's or lister's answer into the lent places, where there are three of them: number, offset, bytes
/// written; and the number.
pub fn write_outcome(c: Result<usize, Refused>, out: &mut [u64]) -> u32
    ensures number { (text : Bytes) → result ≡ (converted_of c text).number }
    ensures out { (text : Bytes) → out.new ≡ written (converted_numbers (converted_of c text)) out.old }
{
    let (number, offset, size) = match c {
        Ok(size) => (0, 0, size),
        Err(refused) => (refused.refusal.number(), refused.offset, 0),
    };
    write_values(&[u64::from(number), offset as u64, size as u64], out);
    number
}

/// The tally of four counters: fragments, accepted, rows, greatest peak.
pub fn tally_from(counters: &[u32; 4]) -> Tally
    ensures { tally_of result ≡ tally_from counters.now }
{
    let [fragments, accepts, rows, peak] = *counters;
    Tally {
        fragments,
        accepts,
        rows,
        peak,
    }
}

/// What a caller lends beside a map: this limit, and this mode, 0 for plain and any other number for the examined one.
pub fn lent_options(limit: u32, mode: u32) -> Options
    ensures { options_of result ≡ lent_options limit mode }
{
    Options {
        limit,
        examined: mode != 0,
    }
}

/// Where the part that is displayed starts in its fragment.
#[tactic(auto, using(crate::proofs::Parts::starts))]
pub fn display_start(body: &[u8], init: &[u8], offset: usize, mark: u32) -> usize
    ensures { result ≡ display_start body.now init.now offset mark }
{
    match mark {
        0 => offset.min(body.len()),
        1 => offset.min(init.len()),
        _ => 0,
    }
}
