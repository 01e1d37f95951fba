// `stackmark` reads a paper from standard input, marks it and prints its lines. No contract can speak of what a program reads or
// writes: the work is `marked`.

#![tactic(auto)]

ghost use Rattle.std.specs.Prelude.{◌≡◌, take};
ghost use Rattle.definition.specs.Lines.{stackmark};

use lines::Lines;

// The lines that are printed of an input: at most 8,001 bytes of it are read, and a log of 24,000 numbers is lent.
fn marked(input: &[u8]) -> Lines
    ensures { take result.size result.bytes ≡ stackmark input.now }
{
    let mut log = [0; 24000];
    lines::mark_lines(&input[..input.len().min(8001)], &mut log)
}

// A read or a write that fails is said on standard error, and is no verdict.
fn main(rt: HostRuntime) {
    let mut paper = [0; 8001];
    let Ok(size) = input::read_input(&mut rt.stdin(), &mut paper) else {
        let _ = rt.eprintln("stackmark: cannot read standard input");
        return;
    };
    let lines = marked(&paper[..size]);
    if rt.write_all(lines.text()).is_err() {
        let _ = rt.eprintln("stackmark: cannot write to standard output");
    }
}
