// The walkers of arms and conditionals.

#![tactic(auto)]

ghost use Rattle.std.specs.Prelude.{◌≤◌};
ghost use Rattle.definition.specs.Basics.{Bytes};
ghost use Rattle.definition.specs.Stacks.{Rules};
ghost use Rattle.walk.specs.Runs.{rules_in, arm_of, Ready};
ghost use Rattle.arms.specs.Walkers.{Enters, Joins, Finishes, Walks, Closes};

use refusals::Refusal;
use stack::Stacks;
use std::mem;
use walk::{ArmEnd, Stop, Walk};

// The conditional at whose IF or NOTIF w stands, with depth of them open, is opened: the condition is popped where the
// arm is live.
fn enter(w: &mut Walk, depth: u32) -> Result<(), Refusal>
    requires { depth ≤ 24 }
    ensures { (R : Rules) (s : Bytes) → Enters R s depth w.old result w.new }
{
    if depth == 24 {
        return Err(Refusal::Nesting);
    }
    if let Some(stacks) = &mut w.stacks {
        stacks.try_drop_items(1)?;
    }
    Ok(())
}

// At ENDIF the arm of w joins the other. Where one of them is dead, the other stands.
fn close(w: &mut Walk, other: &Option<Stacks>) -> Result<(), Refusal>
    ensures { (R : Rules) (s : Bytes) → Joins R s w.old (arm_of other.now) result w.new }
{
    let Some(other) = other else {
        return Ok(());
    };
    let Some(stacks) = &mut w.stacks else {
        w.stacks = Some(*other);
        return Ok(());
    };
    stacks.try_join(other)
}

// The last arm of a conditional has ended so; the other arm is the empty one, as it started, or the first.
fn finish(w: &mut Walk, end: ArmEnd, other: &Option<Stacks>) -> Result<(), Refusal>
    ensures { (R : Rules) (s : Bytes) → Finishes R s w.old end (arm_of other.now) result w.new }
{
    match end {
        ArmEnd::Endif => close(w, other),
        ArmEnd::Else => Err(Refusal::SecondElse),
        ArmEnd::End => Err(Refusal::OpenIf),
    }
}

/// Walks an arm from where w stands, with depth conditionals open around it, to the end, or to the ELSE or ENDIF of the
/// innermost. After a refusal w stands at the instruction that is refused.
#[cycle(arm_conditional)]
pub fn arm(
    code: &[u8],
    log: &mut [u16],
    rules: walk::Rules,
    w: &mut Walk,
    depth: u32,
) -> Result<ArmEnd, Refusal>
    requires ready { Ready code.now log.old w.old }
    requires depth_bound { depth ≤ 24 }
    ensures { Walks (rules_in rules.entry) code.now depth w.old log.old w.new result log.new }
{
    // no `for`: how often it turns is known where the arm ends
    loop {
        match walk::plain(code, log, rules, w)? {
            Stop::Conditional => conditional(code, log, rules, w, depth)?,
            Stop::Arm(end) => return Ok(end),
        }
    }
}

// Walks the conditional at whose IF or NOTIF w stands, of one or two arms, up to and with its ENDIF. It has the stacks of an arm
// among its locals, which an arm without conditionals is not to pay for, so it is not compiled into `arm`.
#[inline(never)]
#[cycle(arm_conditional)]
fn conditional(
    code: &[u8],
    log: &mut [u16],
    rules: walk::Rules,
    w: &mut Walk,
    depth: u32,
) -> Result<(), Refusal>
    requires ready { Ready code.now log.old w.old }
    requires depth_bound { depth ≤ 24 }
    ensures { Closes (rules_in rules.entry) code.now depth w.old log.old w.new result log.new }
{
    enter(w, depth)?;
    // what ENDIF joins with the last arm: the empty one, as it starts, or the first
    let mut other = w.stacks;
    match arm(code, log, rules, w, depth + 1)? {
        ArmEnd::Else => {
            // the second arm starts from the same stacks
            mem::swap(&mut w.stacks, &mut other);
            let end = arm(code, log, rules, w, depth + 1)?;
            finish(w, end, &other)
        }
        end => finish(w, end, &other),
    }
}
