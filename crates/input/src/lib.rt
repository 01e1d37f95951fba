// Reading an input into lent bytes. No contract can say what standard input holds: a read that fails is told apart from the
// end of the input, and of a reader whose bytes are known it is said which of them were read.

#![tactic(auto)]

ghost use Rattle.std.specs.Prelude.{◌≡◌, ◌<◌, ◌≤◌, IfOk, length, take};
ghost use Rattle.std.specs.Io.KnownBytes.{Consumes, IsAtEnd};

use std::io;
use std::io::Read;

/// Reads until the lent bytes are full, the input ends or a read fails, however few bytes a read gives, and says how many bytes
/// were read.
pub fn read_input<R: Read>(source: &mut R, buf: &mut [u8]) -> io::Result<usize>
    ensures within { IfOk result (λ size. size ≤ length buf.new) }
    ensures counted { IfOk result (λ size. size ≡ length (take size buf.new)) }

    // What was read is what the source lost, and it is all that the source had, unless the lent bytes are full.
    ensures bytes { IfOk result (λ size. Consumes (R.remaining source.old) (R.remaining source.new) (take size buf.new)) }
    ensures end { IfOk result (λ size. size < length buf.new → IsAtEnd (R.remaining source.new)) }
{
    let mut n = 0;
    // No `for`: how far a turn goes is what its read gives.
    while n < buf.len() {
        let more = source.read(&mut buf[n..])?;
        if more == 0 {
            return Ok(n);
        }
        n += more;
    }
    Ok(n)
}

#[cfg(test)]
mod tests {
    use super::*;

    // Gives a byte a read, and then the end of the input or a failure.
    #[derive(Drop)]
    struct Drips<'a> {
        rest: &'a [u8],
        fails: bool,
    }

    impl Read for Drips<'_> {
        fn read(&mut self, buf: &mut [u8]) -> io::Result<usize> {
            let Some((first, rest)) = self.rest.split_first() else {
                if self.fails {
                    return Err(io::Error::from(io::ErrorKind::Other));
                }
                return Ok(0);
            };
            if buf.len() == 0 {
                return Ok(0);
            }
            buf[0] = *first;
            self.rest = rest;
            Ok(1)
        }
    }

    // No clause says which reads fail.
    #[test]
    fn tells_a_failure_from_the_end(rt: HostRuntime) {
        let mut buf = [0u8; 4];
        for (given, fails, size) in [
            (&b"abc"[..], false, Some(3)),
            (b"abc", true, None),
            (b"abcde", true, Some(4)),
            (b"", false, Some(0)),
            (b"", true, None),
        ] {
            let mut source = Drips { rest: given, fails };
            let read = read_input(&mut source, &mut buf);
            assert_eq!(rt; read.ok(), size);
        }
        assert_eq!(rt; buf, *b"abcd");
    }
}
