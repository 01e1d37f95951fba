// The rows of the log as `stacklog` prints them: a function gives a line, and says which it is.
// Conditionals go by the classes of lent rows: a row is the same beside whatever options.

#![tactic(auto)]

ghost use Rattle.std.specs.Prelude.{◌≡◌, ◌++◌, ◌+◌, ◌*◌, ◌≤◌, ◌-◌, ◌^◌, ◌<◌, ltb, length, take, get_or, replicate};
ghost use Rattle.arrayvec.specs.ArrayVec.{array_vec_len};
ghost use Rattle.definition.specs.Basics.{pick};
ghost use Rattle.definition.specs.Classes.{class_at};
ghost use Rattle.definition.specs.Lines.{text, decimal};
ghost use Rattle.definition_rules.specs.Maps.{Options, rules_by};
ghost use Rattle.opcodes.specs.Class.{number_of};
ghost use Rattle.opcodes.specs.Classes.{rows_of};
ghost use Rattle.text.specs.View.{Puts};
ghost use Rattle.log_rows.specs.Rows.{offset_at, main_at, alt_at, opcode_at, total_of, scale_of, column, filled, bar};
ghost use Rattle.log_rows.specs.Rows.{hex, instruction, bytes_field, shown_data, word, indented};
ghost use Rattle.log_rows.specs.Rows.{live_heights, heights, is_if, depth_after, indent, heading, row_line, row};

use names::Names;
use opcodes::{Class, Classes};
use text::{Lent, Line, push_hex, push_labelled, push_number, push_word};

// Appends a byte so many times.
#[tactic(auto, using(crate::proofs::Rows::loops))]
fn push_same<const N: usize>(line: &mut Line<N>, byte: u8, count: usize)
    requires { array_vec_len line.old + count ≤ N }
    ensures items { line.new.items ≡ line.old.items ++ replicate count byte }
    ensures len { array_vec_len line.new ≡ array_vec_len line.old + count }
{
    for _ in 0..count {
        line.push(byte);
    }
}

// A number at the right of a column, which it fits.
#[tactic(auto, using(text::proofs::Texts::printed), unfolding(crate::specs::Rows::column))]
fn column<const N: usize>(n: u64) -> Line<N>
    requires { length (decimal n) ≤ N }
    ensures { result.items ≡ column N n }
{
    let mut digits: Line<20> = Line::new();
    push_number(&mut digits, n);
    let mut line = Line::new();
    push_same(&mut line, b' ', N - digits.len());
    push_word(&mut line, &digits);
    line
}

// How many places of a bar are filled.
// That the scale is no less than 1 and no less than n is asked, here and above: n is another number at each call, so that a type
// for the scale would hold the first half alone.
fn places(scale: u32, n: u32) -> usize
    requires { (1 ≤ scale) × (n ≤ scale) }
    ensures same { result ≡ filled scale n }
    ensures short { result ≤ 16 }
{
    let whole = u64::from(scale);
    ((16 * u64::from(n) + whole - 1) / whole) as usize
}

// The bar of a total.
#[tactic(auto, unfolding(crate::specs::Rows::bar))]
fn bar(scale: u32, n: u32) -> Line<16>
    requires { (1 ≤ scale) × (n ≤ scale) }
    ensures { result.items ≡ bar scale n }
{
    let full = places(scale, n);
    let mut line = Line::new();
    push_same(&mut line, b'#', full);
    push_same(&mut line, b'.', 16 - full);
    line
}

// Appends bytes in hexadecimal, a blank before each.
fn push_hex_bytes<const N: usize>(line: &mut Line<N>, bytes: &[u8])
    requires { array_vec_len line.old + 3 * length bytes.now ≤ N }
    ensures items { line.new.items ≡ line.old.items ++ hex bytes.now }
    ensures len { array_vec_len line.new ≡ array_vec_len line.old + 3 * length bytes.now }
{
    for &byte in bytes {
        push_word(line, b" ");
        push_hex(line, byte);
    }
}

// Bytes in hexadecimal: of more than 4 so many, and ` ..`.
fn shown_bytes<const N: usize>(bytes: &[u8], shown: usize) -> Line<N>
    requires { (shown ≤ 4) × (3 * shown + 3 ≤ N) × (12 ≤ N) }
    ensures { result.items
        ≡ pick (ltb 4 (length bytes.now)) (hex (take shown bytes.now) ++ text " ..") (hex bytes.now) }
{
    let mut line = Line::new();
    if bytes.len() > 4 {
        push_hex_bytes(&mut line, &bytes[..shown]);
        push_word(&mut line, b" ..");
    } else {
        push_hex_bytes(&mut line, bytes);
    }
    line
}

/// The bytes of an instruction: at most 4 of them.
#[tactic(auto, using(crate::proofs::Rows::shown), unfolding(crate::specs::Rows::instruction))]
pub fn instruction(bytes: &[u8]) -> Line<15>
    ensures { result.items ≡ instruction bytes.now }
{
    shown_bytes(bytes, 4)
}

// The bytes of an instruction in a field of 12 columns.
#[tactic(auto, using(crate::proofs::Rows::shown), unfolding(crate::specs::Rows::bytes_field))]
fn bytes_field(bytes: &[u8]) -> Line<12>
    ensures { result.items ≡ bytes_field bytes.now }
{
    let mut line = shown_bytes(bytes, 3);
    let blanks = 12 - line.len();
    push_same(&mut line, b' ', blanks);
    line
}

// Puts the word of data, of more than 8 bytes the first 6.
fn put_shown_data(text: &mut Lent, bytes: &[u8])
    ensures { Puts text.old (shown_data bytes.now) text.new }
{
    if bytes.len() > 8 {
        text.put(b"<");
        listing::put_hex_bytes(text, &bytes[..6]);
        text.put(b"..>");
    } else {
        listing::put_data_word(text, bytes);
    }
}

// Puts the word of an instruction, by its bytes.
fn put_word(text: &mut Lent, bytes: &[u8], names: &Names)
    ensures { Puts text.old (word bytes.now) text.new }
{
    match decode::decode_at(bytes, 0) {
        Ok(Some(i)) if i.opcode > 0x4e => listing::put_code_word(text, i.opcode, names),
        Ok(Some(i)) => put_shown_data(text, listing::data(bytes, 0, i.next)),
        Ok(None) => {}
        Err(_) => {}
    }
}

// The word of an instruction so far to the right, as 26 columns allow.
// Its letters and their size stand beside: words are put into lent bytes, which a `Line` does not lend.
#[tactic(auto, unfolding(crate::specs::Rows::indented))]
fn indented(right: usize, bytes: &[u8]) -> Line<26>
    ensures { result.items ≡ indented right (word bytes.now) }
{
    let mut letters = [0u8; 26];
    let mut word = Lent::new(&mut letters);
    put_word(&mut word, bytes, &Names::new());
    let size = word.size();
    let mut line = Line::new();
    push_same(&mut line, b' ', right.min(26 - size));
    push_word(&mut line, &letters[..size]);
    line
}

/// A row of the log: the offset of an instruction, and the heights before it, 65,535 twice in a dead arm.
#[derive(Clone, Copy, Debug, PartialEq, Eq)]
pub struct LogRow {
    pub offset: u16,
    pub main: u16,
    pub alt: u16,
}

/// Row j of the log.
// The log is lent as numbers, three to a row, as C lends it: who reads a row asks that the log has it.
pub fn row_at(log: &[u16], j: usize) -> LogRow
    requires { 3 * j + 3 ≤ length log.now }
    ensures { result ≡ record { offset = offset_at log.now j; main = main_at log.now j; alt = alt_at log.now j } }
{
    LogRow {
        offset: log[3 * j],
        main: log[3 * j + 1],
        alt: log[3 * j + 2],
    }
}

// The total of its heights.
#[tactic(auto, unfolding(crate::specs::Rows::total_of))]
fn total(row: LogRow) -> u32
    ensures { result ≡ total_of row.main row.alt }
{
    if row.main == 65535 {
        0
    } else {
        u32::from(row.main) + u32::from(row.alt)
    }
}

// Main height, alt height, the total and its bar.
#[tactic(auto, using(crate::proofs::Rows::columns), unfolding(crate::specs::Rows::live_heights))]
fn live_heights(scale: u32, main: u16, alt: u16) -> Line<35>
    requires { (1 ≤ scale) × (main + alt ≤ scale) }
    ensures { result.items ≡ live_heights scale main alt }
{
    let total = u32::from(main) + u32::from(alt);
    let mut line = Line::new();
    push_word(&mut line, &column::<5>(u64::from(main)));
    push_word(&mut line, &column::<5>(u64::from(alt)));
    push_word(&mut line, &column::<6>(u64::from(total)));
    push_word(&mut line, b" |");
    push_word(&mut line, &bar(scale, total));
    push_word(&mut line, b"|");
    line
}

// The heights of a row.
#[tactic(auto, unfolding(crate::specs::Rows::total_of))]
fn heights(scale: u32, row: LogRow) -> Line<35>
    requires { (1 ≤ scale) × (total_of row.main row.alt ≤ scale) }
    ensures { result.items ≡ heights scale row.main row.alt }
{
    if row.main == 65535 {
        let mut line = Line::new();
        push_word(&mut line, b" dead dead       |                |");
        line
    } else {
        live_heights(scale, row.main, row.alt)
    }
}

// The line of an instruction, of at most 80 characters and the newline.
#[tactic(auto, using(crate::proofs::Rows::columns), unfolding(crate::specs::Rows::row_line))]
fn row_line(scale: u32, row: LogRow, right: usize, bytes: &[u8]) -> Line<81>
    requires { (1 ≤ scale) × (total_of row.main row.alt ≤ scale) }
    ensures { result.items ≡ row_line scale row.offset row.main row.alt right bytes.now }
{
    let mut line = Line::new();
    push_word(&mut line, &column::<6>(u64::from(row.offset)));
    push_word(&mut line, &heights(scale, row));
    push_word(&mut line, &bytes_field(bytes));
    push_word(&mut line, b" ");
    push_word(&mut line, &indented(right, bytes));
    push_word(&mut line, b"\n");
    line
}

/// Whether an instruction of this class is an IF or NOTIF.
pub fn opens(class: Class) -> bool
    ensures { result ≡ is_if (class_at (number_of class)) }
{
    matches!(class, Class::If | Class::NotIf)
}

/// How many conditionals are open behind an instruction of this class.
#[tactic(auto, unfolding(crate::specs::Rows::depth_after))]
pub fn depth_behind(class: Class, depth: usize) -> usize
    requires { depth < 2 ^ 64 - 1 }
    ensures same { result ≡ depth_after (class_at (number_of class)) depth }
    ensures near { result ≤ depth + 1 }
{
    match class {
        Class::If | Class::NotIf => depth + 1,
        Class::EndIf => depth.saturating_sub(1),
        _ => depth,
    }
}

// How far the word of an instruction of this class stands to the right.
#[tactic(auto, unfolding(crate::specs::Rows::indent))]
fn indent(class: Class, depth: usize) -> usize
    ensures { result ≡ indent (class_at (number_of class)) depth }
{
    match class {
        Class::Else | Class::EndIf => depth.saturating_sub(1),
        _ => depth,
    }
}

/// A paper that was marked or a fragment of it, the log that was written, and the classes by which it was marked.
#[derive(Clone, Copy)]
pub struct Logged<'a> {
    pub bytes: &'a [u8],
    pub log: &'a [u16],
    pub classes: Classes<'a>,
}

impl<'a> Logged<'a> {
    // The opcode of row j of the log.
    fn opcode_at(self, j: usize) -> u8
        requires { 3 * j + 3 ≤ length self.log.now }
        ensures { result ≡ opcode_at self.entry.bytes.now self.entry.log.now j }
    {
        self.bytes
            .get(usize::from(row_at(self.log, j).offset))
            .copied()
            .unwrap_or(0)
    }

    /// The class of row j of the log.
    pub fn class_of_row(self, j: usize) -> Class
        requires { 3 * j + 3 ≤ length self.log.now }
        ensures { number_of result
            ≡ get_or (rows_of self.entry.classes) (opcode_at self.entry.bytes.now self.entry.log.now j) 0 }
    {
        self.classes.of(self.opcode_at(j))
    }

    /// The line of row j of the log.
    #[tactic(auto, unfolding(crate::specs::Rows::row))]
    pub fn row(self, scale: u32, depth: usize, j: usize) -> Line<81>
        requires j_in_bounds { 3 * j + 3 ≤ length self.log.now }
        requires whole { (1 ≤ scale) × (total_of (main_at self.log.now j) (alt_at self.log.now j) ≤ scale) }
        ensures { (options : Options)
            → result.items
            ≡ row (rules_by (rows_of self.entry.classes) options) self.entry.bytes.now self.entry.log.now scale depth j }
    {
        let numbers = row_at(self.log, j);
        let right = indent(self.class_of_row(j), depth);
        let bytes = display::display(self.bytes, self.bytes, usize::from(numbers.offset), 0);
        row_line(scale, numbers, right, bytes)
    }
}

/// What stands over the columns.
#[tactic(auto, unfolding(crate::specs::Rows::heading))]
pub fn heading(scale: u32) -> Line<81>
    ensures { result.items ≡ heading scale }
{
    let mut whole: Line<23> = Line::new();
    push_labelled(&mut whole, b"of ", u64::from(scale));
    let mut line = Line::new();
    push_word(&mut line, b"offset main  alt total |");
    push_word(&mut line, &whole);
    push_same(&mut line, b' ', 16usize.saturating_sub(whole.len()));
    push_word(&mut line, b"| bytes       instruction\n");
    line
}

/// What a whole bar stands for, over `count` rows from row `from` on.
#[tactic(auto, using(crate::proofs::Rows::loops))]
pub fn scale_of(peak: u32, log: &[u16], from: usize, count: usize) -> u32
    requires { 3 * (from + count) ≤ length log.now }
    ensures same { result ≡ scale_of peak log.now from count }
{
    let mut scale = peak.max(8);
    for row in from..from + count {
        scale = scale.max(total(row_at(log, row)));
    }
    scale
}
