// Replays the fixed list of the Rust's answers: reads cases, one a line, and writes one answer a line, by the protocol of
// compare/README.md. A line that is not understood is answered `bad line N`, with its number from 1.
//
// Its stdin and stdout are the fixed list and the answers to it, whole:
//
//     cp compare/list/cases.txt crates/vectors/stdin
//     cp compare/list/answers.txt crates/vectors/stdout

#![tactic(auto)]

ghost use Rattle.std.specs.Prelude.{◌≡◌};
ghost use Rattle.definition.specs.Walk as Walk;
ghost use Rattle.definition.specs.Walk.{Verdict};
ghost use Rattle.tally.specs.View.{tally_of, answer_of, Gives};

use arrayvec::ArrayVec;
use cases::{bytes, height, next_part, numbers};
use itoa::{Buffer, Integer};
use refusals::{Answer, Refusal};
use std::io::Read;
use tally::Tally;

// The longest line that is understood.
const LONGEST: usize = 20100;

// A line, and of one that is too long one character too many.
type Line = ArrayVec<u8, 20101>;

// A tail of equal bytes this long is written in the repeat form.
const LONG_TAIL: usize = 100;

// Room for the bytes of a case, body and initialiser together, and for the log of a fragment that is not too long.
#[derive(Drop)]
struct Room {
    code: [u8; 40000],
    log: [u16; 30000],
}

// The answers that are not written yet: a block of them is written where it is full, and where a block of the input is answered.
#[derive(Drop)]
struct Answers<'a, P> {
    out: &'a P,
    held: ArrayVec<u8, 65536>,
}

impl<P: Print> Answers<'_, P> {
    // Writes what is held.
    fn flush(&mut self) {
        let _ = self.out.write_all(&self.held);
        self.held.clear();
    }

    // A character more.
    fn push(&mut self, b: u8) {
        if self.held.is_full() {
            self.flush();
        }
        let _ = self.held.try_push(b);
    }

    // A text more.
    fn put(&mut self, text: &[u8]) {
        for &b in text {
            self.push(b);
        }
    }

    // A number more.
    fn number(&mut self, n: impl Integer) {
        self.put(Buffer::new().format(n).as_bytes());
    }

    // A line more: a word, and numbers.
    fn line(&mut self, word: &[u8], numbers: &[impl Integer]) {
        self.put(word);
        for &n in numbers {
            self.push(b' ');
            self.number(n);
        }
        self.push(b'\n');
    }

    // Bytes more in hex.
    fn hex(&mut self, part: &[u8]) {
        for &byte in part {
            self.push(text::hex_digit(byte / 16));
            self.push(text::hex_digit(byte % 16));
        }
    }

    // BYTES more: `-` for none, or hex, a long tail of equal bytes in the repeat form.
    fn bytes(&mut self, part: &[u8]) {
        let Some(last) = part.last() else {
            return self.push(b'-');
        };
        let times = part.iter().rev().take_while(|&byte| byte == last).count();
        if times < LONG_TAIL {
            return self.hex(part);
        }
        self.hex(&part[..part.len() - times + 1]);
        self.push(b'*');
        self.number(times);
    }
}

// A verdict's number, offset and figures.
fn numbers_of(answer: Answer) -> [u64; 4] {
    [
        u64::from(answer.number),
        answer.offset as u64,
        answer.first,
        answer.second,
    ]
}

// `fragment MAIN ALT BYTES`, from MAIN on. Where the Rust lacks the limit, 1 and 5, the answer is `fragment outside`.
fn fragment(answers: &mut Answers<'_, impl Print>, line: &[u8], room: &mut Room) -> Option<()> {
    let main = height(line)?;
    let alt = height(main.rest)?;
    let count = bytes(alt.rest, &mut room.code)?;
    let v = stack_analysis::analyze_heights(
        &room.code[..count],
        main.value,
        alt.value,
        &mut room.log,
    );
    let outcome = v.map(|_| ()).map_err(|r| r.refused);
    let answer = Answer::from(outcome);
    match outcome.map_err(|r| r.refusal) {
        Err(Refusal::LongFragment { .. } | Refusal::Nesting) => answers.put(b"fragment outside\n"),
        _ => answers.line(b"fragment", &numbers_of(answer)),
    }
    Some(())
}

// `limits BYTES`, from BYTES on.
fn limits(answers: &mut Answers<'_, impl Print>, line: &[u8], room: &mut Room) -> Option<()> {
    let count = bytes(line, &mut room.code)?;
    let answer = Answer::from(limits::validate_txscript_bytecode_limits(&room.code[..count]));
    answers.line(b"limits", &numbers_of(answer));
    Some(())
}

// `paper BYTES`, from BYTES on. Where the Rust lacks the limit, 5, the answer is `paper outside`; no fragment of a paper is refused
// with 1.
fn paper(answers: &mut Answers<'_, impl Print>, line: &[u8], room: &mut Room) -> Option<()> {
    let count = bytes(line, &mut room.code)?;
    let v = paper::mark_paper(&room.code[..count], &mut room.log);
    let entry = match v {
        Ok(_) => 0,
        Err(r) => r.entry,
    };
    let outcome = v.map(|_| ()).map_err(|r| r.refused);
    let answer = Answer::from(outcome);
    match outcome.map_err(|r| r.refusal) {
        Err(Refusal::Nesting) => answers.put(b"paper outside\n"),
        _ => {
            let [number, offset, first, second] = numbers_of(answer);
            answers.line(b"paper", &[number, entry as u64, offset, first, second]);
        }
    }
    Some(())
}

// `display BODY INIT OFFSET MARK`, from BODY on.
fn display(answers: &mut Answers<'_, impl Print>, line: &[u8], room: &mut Room) -> Option<()> {
    let body = next_part(line, &mut room.code)?;
    let init = next_part(body.rest, &mut room.code[body.count..])?;
    let [offset, mark] = numbers::<2>(init.rest)?;
    let (code, rest) = room.code.split_at(body.count);
    let shown = display::display(code, &rest[..init.count], offset as usize, mark);
    answers.put(b"display ");
    answers.bytes(shown);
    answers.push(b'\n');
    Some(())
}

// The tally with one verdict more, of this number, rows and peak, or 22 with the tally as it was: `gain`, on a tally that
// is lent to it.
fn gain_once(tally: Tally, number: u32, rows: usize, peak: u32) -> (Tally, Result<(), Refusal>)
    ensures { (v : Verdict)
        → Gives v number rows peak
        → answer_of (tally_of result.0) result.1 ≡ Walk.gain (tally_of tally) v }
{
    let mut lent = tally;
    let answer = lent.gain(number, rows, peak);
    (lent, answer)
}

// `tally FRAGMENTS ACCEPTED ROWS PEAK NUMBER VROWS VPEAK`, from FRAGMENTS on.
fn tally(answers: &mut Answers<'_, impl Print>, line: &[u8]) -> Option<()> {
    let [fragments, accepts, rows, peak, number, more_rows, its_peak] = numbers::<7>(line)?;
    let tally = Tally {
        fragments,
        accepts,
        rows,
        peak,
    };
    let (t, answer) = gain_once(tally, number, more_rows as usize, its_peak);
    let answer = match answer {
        Ok(()) => 0,
        Err(refusal) => refusal.number(),
    };
    answers.line(b"tally", &[answer, t.fragments, t.accepts, t.rows, t.peak]);
    Some(())
}

// Answers a line that is understood, by its first word.
fn understood(answers: &mut Answers<'_, impl Print>, line: &[u8], room: &mut Room) -> Option<()> {
    if line.len() > LONGEST {
        return None;
    }
    if let Some(rest) = line.strip_prefix(b"fragment ") {
        return fragment(answers, rest, room);
    }
    if let Some(rest) = line.strip_prefix(b"limits ") {
        return limits(answers, rest, room);
    }
    if let Some(rest) = line.strip_prefix(b"paper ") {
        return paper(answers, rest, room);
    }
    if let Some(rest) = line.strip_prefix(b"display ") {
        return display(answers, rest, room);
    }
    tally(answers, line.strip_prefix(b"tally ")?)
}

// Answers the line of this number.
fn answer(answers: &mut Answers<'_, impl Print>, line: &[u8], number: u64, room: &mut Room) {
    if understood(answers, line, room).is_none() {
        answers.line(b"bad line", &[number]);
    }
}

// Holds more of a line, as far as there is room.
fn hold(line: &mut Line, part: &[u8]) {
    let size = part.len().min(line.remaining_capacity());
    let _ = line.try_extend_from_slice(&part[..size]);
}

// Answers the line of this number, of which this is the end, and what is held the start.
fn end_line(
    answers: &mut Answers<'_, impl Print>,
    line: &mut Line,
    end: &[u8],
    number: u64,
    room: &mut Room,
) {
    if line.is_empty() {
        return answer(answers, end, number, room);
    }
    hold(line, end);
    answer(answers, line, number, room);
    line.clear();
}

// Answers every line of the input, the last too where no newline ends it. Nothing says that an input ends, so the blocks are
// counted, from a number that no run uses up.
fn replay(rt: &impl Print, source: &mut impl Read, room: &mut Room) {
    let mut answers = Answers {
        out: rt,
        held: ArrayVec::new(),
    };
    let mut line = Line::new();
    let mut number: u64 = 1;
    let mut block = [0u8; 65536];
    for _ in 0..u64::MAX {
        let Ok(n) = source.read(&mut block) else {
            break;
        };
        if n == 0 {
            break;
        }
        for part in block[..n].split_inclusive(|&b| b == b'\n') {
            let Some(end) = part.strip_suffix(b"\n") else {
                hold(&mut line, part);
                continue;
            };
            end_line(&mut answers, &mut line, end, number, room);
            number = number.wrapping_add(1);
        }
        answers.flush();
    }
    if !line.is_empty() {
        answer(&mut answers, &line, number, room);
        answers.flush();
    }
}

fn main(rt: HostRuntime) {
    let mut room = Room {
        code: [0; 40000],
        log: [0; 30000],
    };
    replay(&rt, &mut rt.stdin(), &mut room);
}
