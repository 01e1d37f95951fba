// `stacklog` reads a paper from standard input, marks it and prints its log as a person reads it: for each fragment a line for
// each instruction met, and the verdict in words. No contract can speak of what a program reads or writes: the work is `logged`.

#![tactic(auto)]

ghost use Rattle.std.specs.Prelude.{◌++◌, ◌≡◌, leb, length, drop};
ghost use Rattle.definition.specs.Basics.{pick};
ghost use Rattle.log_text.specs.LogText.{stacklog};

// The text that is printed of an input, written into the lent bytes where there is room for it; the answer is its size. At most
// 8,001 bytes of the input are read, and a log of 24,000 numbers is lent.
fn logged(input: &[u8], text: &mut [u8]) -> usize
    ensures size { result ≡ length (stacklog input.now) }
    ensures written { text.new
        ≡ pick
        (leb (length (stacklog input.now)) (length text.old))
        (stacklog input.now ++ drop (length (stacklog input.now)) text.old)
        text.old }
{
    let mut log = [0; 24000];
    log_text::write_log(&input[..input.len().min(8001)], &mut log, text).size
}

// 700,000 bytes, more than the log of any paper has. The contract gives only their number, which lending them needs.
fn room() -> [u8; 700000]
    ensures { 700000 ≡ length result }
{
    [0; 700000]
}

// A read or a write that fails is said on standard error, and is no verdict.
fn main(rt: HostRuntime) {
    let mut paper = [0; 8001];
    let Ok(size) = input::read_input(&mut rt.stdin(), &mut paper) else {
        let _ = rt.eprintln("stacklog: cannot read standard input");
        return;
    };
    let mut text = room();
    let size = logged(&paper[..size], &mut text);
    if size > 700000 {
        let _ = rt.eprintln("stacklog: the log is too long");
        return;
    }
    if rt.write_all(&text[..size]).is_err() {
        let _ = rt.eprintln("stacklog: cannot write to standard output");
    }
}
