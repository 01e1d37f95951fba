// The words of the verdict numbers.

#![tactic(auto)]

ghost use Rattle.std.specs.Prelude.{◌≡◌, ◌++◌, ◌+◌, ◌≤◌, length};
ghost use Rattle.definition.specs.Lines.{decimal};
ghost use Rattle.reasons.specs.Reasons.{reason};

use text::{Line, push_hex, push_labelled, push_word};

// A word.
fn word(word: &[u8]) -> Line<80>
    requires { length word.now ≤ 80 }
    ensures { result.items ≡ word.now }
{
    let mut line = Line::new();
    push_word(&mut line, word);
    line
}

// A word with both figures.
fn both(word: &[u8], first: u64, and: &[u8], second: u64) -> Line<80>
    requires { length word.now + length and.now + 40 ≤ 80 }
    ensures { result.items ≡ (word.now ++ decimal first) ++ (and.now ++ decimal second) }
{
    let mut line = Line::new();
    push_labelled(&mut line, word, first);
    push_labelled(&mut line, and, second);
    line
}

/// The word of a verdict number with its figures, nothing for a number past 30.
#[tactic(auto, unfolding(crate::specs::Reasons::reason))]
pub fn reason(number: u32, first: u64, second: u64) -> Line<80>
    ensures { result.items ≡ reason number first second }
{
    match number {
        0 => word(b"accepted"),
        1 => both(b"long fragment: length ", first, b", limit ", second),
        2 => both(b"start: sum ", first, b", limit ", second),
        3 => word(b"malformed"),
        4 => both(b"short log: needed ", first, b", lent ", second),
        5 => both(b"nesting: open ", first, b", limit ", second),
        6 => both(b"stacks full: total wanted ", first, b", limit ", second),
        7 => both(b"main dry: needed ", first, b", had ", second),
        8 => word(b"alt dry"),
        9 => word(b"index: the item is unknown"),
        10 => word(b"tag"),
        11 => {
            let mut line = Line::new();
            push_word(&mut line, b"unmodelled: opcode ");
            push_hex(&mut line, (first % 256) as u8);
            line
        }
        12 => word(b"arms differ"),
        13 => word(b"stray ELSE"),
        14 => word(b"second ELSE"),
        15 => word(b"stray ENDIF"),
        16 => word(b"open IF"),
        17 => both(b"opcode count: count ", first, b", limit ", second),
        18 => both(b"script size: length ", first, b", limit ", second),
        19 => word(b"header"),
        20 => both(b"dispatch: sum ", first, b", limit ", second),
        21 => both(b"long paper: length ", first, b", limit ", second),
        22 => word(b"tally full"),
        23 => word(b"bad sitting"),
        24 => word(b"crooked number: a needless 00 (05 00) or 80 (negative zero)"),
        25 => word(b"negative index: top bit of the last byte set (81 is minus 1)"),
        26 => word(b"strange word"),
        27 => word(b"output short"),
        28 => word(b"bad map"),
        29 => word(b"bad limit"),
        30 => both(b"long element: length ", first, b", limit ", second),
        _ => Line::new(),
    }
}
