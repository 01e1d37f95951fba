// The display: what a log shows of a fragment at an offset.

#![tactic(auto)]

ghost use Rattle.std.specs.Prelude.{◌≡◌, drop};
// `Papers.display` is the display in crates/definition/specs/Papers.antt.
ghost use Rattle.definition.specs.Papers as Papers;
ghost use Rattle.definition.specs.Papers.{shown_at};

// The whole instruction decoded from an offset; the rest if it is malformed; nothing at or past the end.
#[tactic(auto, using(crate::proofs::Shown::shown))]
fn shown_at(fragment: &[u8], offset: usize) -> &[u8]
    ensures { result.now ≡ shown_at (drop offset fragment.now) }
{
    match decode::decode_at(fragment, offset) {
        Ok(Some(instruction)) => &fragment[offset..instruction.next],
        Ok(None) => &[],
        Err(_) => &fragment[offset..],
    }
}

/// The part of the body (mark 0) or of the initialiser (mark 1) that shows what stands at an offset; an empty part for
/// another mark.
#[tactic(auto, using(crate::proofs::Shown::marks))]
pub fn display<'a>(body: &'a [u8], init: &'a [u8], offset: usize, mark: u32) -> &'a [u8]
    ensures { result.now ≡ Papers.display body.now init.now offset mark }
{
    match mark {
        0 => shown_at(body, offset),
        1 => shown_at(init, offset),
        _ => &[],
    }
}
