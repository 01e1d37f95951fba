// Runs stack operations alone, for counts of their instructions: docs/SPEED.md, "Stack operations". Each letter of the input
// is an operation on stacks that start with 200 unknown items on main; the heights at the end are written.
//
//     p push 51     d drop     c DUP     r ROT     t to alt     f from alt     e a plain effect (2 and 1)
//     u a plain effect (0 and 1)     j join with the start

#![tactic(auto)]

use decode::Value;
use stack::{Limit, Stacks};

// The operations one after another, in place; after a refused one the next goes on from what it left.
fn run(letters: &[u8], start: Stacks) -> Stacks {
    let mut s = start;
    for letter in letters {
        let _ = match *letter {
            b'p' => s.try_push(Value::Exact { len: 1, bytes: 1 }, Limit::BUILT_IN),
            b'd' => s.try_drop_items(1),
            b'c' => s.try_extend_from_within(1, 1, Limit::BUILT_IN),
            b'r' => s.try_rotate_left(3, 1),
            b't' => s.try_move_to_alt(),
            b'f' => s.try_move_from_alt(),
            b'e' => s.try_apply_effect(2, 1, Limit::BUILT_IN),
            b'u' => s.try_apply_effect(0, 1, Limit::BUILT_IN),
            b'j' => s.try_join(&start),
            _ => continue,
        };
    }
    s
}

// A read or a write that fails is said on standard error.
fn main(rt: HostRuntime) {
    let mut letters = [0u8; 40000];
    let Ok(n) = input::read_input(&mut rt.stdin(), &mut letters) else {
        let _ = rt.eprintln("stack_bench: cannot read standard input");
        return;
    };
    let start = Stacks::new(200, 0);
    let s = run(&letters[..n], start);
    if println!(rt; "{} {}", s.mains, s.alts).is_err() {
        let _ = rt.eprintln("stack_bench: cannot write to standard output");
    }
}

#[cfg(test)]
mod tests {
    use super::*;

    // The methods by value, each on a copy of the same stacks: an exact 1 over three unknown items, and one item on alt. What they
    // leave is their contracts'; that each can be called is shown here.
    #[test]
    #[tactic(auto, unfolding(slots::specs::View::sufficient, slots::specs::View::code_of))]
    fn methods_by_value(rt: HostRuntime) {
        let limit = Limit::BUILT_IN;
        let one = Value::Exact { len: 1, bytes: 1 };
        let s = Stacks::new(3, 1).push(one, limit).stacks;
        for (step, mains, alts) in [
            (s.push(one, limit), 5, 1),
            (s.push_code(11, limit), 5, 1),
            (s.push_exact(2, 257, limit), 5, 1),
            (s.drop_items(2), 2, 1),
            (s.apply_effect(2, 1, limit), 3, 1),
            (s.extend_from_within(4, 2, limit), 6, 1),
            (s.rotate_left(3, 1), 4, 1),
            (s.tuck(limit), 5, 1),
            (s.nip(), 3, 1),
            (s.move_to_alt(), 3, 2),
            (s.move_from_alt(), 5, 0),
            (s.join(s), 4, 1),
            (s.pick(limit), 4, 1),
            (s.roll(), 3, 1),
            (s.depth(limit), 5, 1),
            (s.size(limit), 5, 1),
        ] {
            assert!(rt; step.answer.is_ok());
            assert_eq!(rt; (step.stacks.mains, step.stacks.alts), (mains, alts));
        }
        // no tag of ZK
        assert!(rt; s.zk(limit).answer.is_err());
    }
}
