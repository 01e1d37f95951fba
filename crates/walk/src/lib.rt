// The walk over instructions that are no conditionals.

#![tactic(auto)]

ghost use Rattle.std.specs.Prelude.{◌≡◌, ℕ, ◌+◌, ◌*◌, ◌^◌, ◌<◌, length, set};
ghost use Rattle.definition.specs.Stacks.{built_in};
ghost use Rattle.definition_rules.specs.Maps.{built_in_options};
ghost use Rattle.walk.specs.Runs.{options_of, rules_in, dead_walk, Room, Ready, Runs};

use decode::{Instruction, Value};
use opcodes::{Class, Classes};
use refusals::Refusal;
use stack::{Limit, Stacks};

/// What the log has for a height in a dead arm.
const DEAD: u16 = 65535;

/// What a caller lends beside a map: the most items that the stacks hold together, and whether literals above 520 bytes are
/// refused, the examined mode.
#[derive(Clone, Copy, Debug, PartialEq, Eq)]
pub struct Options {
    pub limit: u32,
    pub examined: bool,
}

impl Options {
    /// What stands beside the built-in table: 244 items, plain mode.
    pub fn built_in() -> Options
        ensures same { options_of result ≡ built_in_options }
        ensures limit { result.limit ≡ 244 }
    {
        Options {
            limit: 244,
            examined: false,
        }
    }
}

/// What a walk goes by: the class of each opcode, the most items that the stacks hold together, and whether literals above 520
/// bytes are refused.
#[derive(Clone, Copy)]
pub struct Rules<'a> {
    pub classes: Classes<'a>,
    pub limit: Limit,
    pub examined: bool,
}

impl Rules<'_> {
    /// The built-in classes, 244 items, plain mode.
    pub fn built_in() -> Rules<'static>
        ensures { rules_in result ≡ built_in }
    {
        Rules {
            classes: Classes::built_in(),
            limit: Limit::BUILT_IN,
            examined: false,
        }
    }
}

/// Where an arm ends: with the fragment, or at the ELSE or ENDIF of its conditional, whose row is written.
#[derive(Clone, Copy, Debug, PartialEq, Eq)]
pub enum ArmEnd {
    End,
    Else,
    Endif,
}

/// Where a walk over plain instructions stops: at an IF or NOTIF, whose row is written, or where its arm ends.
#[derive(Clone, Copy, Debug, PartialEq, Eq)]
pub enum Stop {
    Conditional,
    Arm(ArmEnd),
}

/// Where a walk stands in its fragment and in the log: the offset of the next instruction, that of the one met last, and the rows
/// written.
#[derive(Clone, Copy, Debug, PartialEq, Eq)]
pub struct Place {
    pub at: usize,
    pub last: usize,
    pub rows: usize,
}

// Row k of the log: an instruction at this offset, with these heights.
fn log_row(log: &mut [u16], k: usize, offset: usize, main: u16, alt: u16)
    requires room { 3 * k + 2 < length log.old }
    requires short { offset < 2 ^ 16 }
    ensures { log.new ≡ set (set (set log.old (3 * k) offset) (3 * k + 1) main) (3 * k + 2) alt }
{
    log[3 * k] = offset as u16;
    log[3 * k + 1] = main;
    log[3 * k + 2] = alt;
}

impl Place {
    /// An instruction is met, whose row is written: the next one is that behind it.
    fn meet(&mut self, instruction: Instruction)
        requires { 3 * self.old.rows + 2 < 2 ^ 64 }
        ensures { self.new ≡ record { at = instruction.next; last = self.old.at; rows = self.old.rows + 1 } }
    {
        *self = Place {
            at: instruction.next,
            last: self.at,
            rows: self.rows + 1,
        };
    }
}

/// A walk: the stacks of its arm, none where the arm is dead, where it stands, and the peak.
#[derive(Clone, Copy)]
pub struct Walk {
    pub stacks: Option<Stacks>,
    pub place: Place,
    pub peak: u32,
}

// In a dead arm, the instructions up to the next IF, NOTIF, ELSE or ENDIF, whose row is written too, or to the end.
fn skip(code: &[u8], log: &mut [u16], rules: Rules, place: &mut Place) -> Stop
    requires { Room code.now log.old place.old.at place.old.rows }
    ensures { (peak : ℕ)
        → Runs (rules_in rules.entry) code.now (dead_walk place.old peak) log.old (dead_walk place.new peak) (Ok result) log.new }
{
    // no `for`: `place` moves, and stays where the walk stops
    while let Ok(Some(instruction)) = decode::decode_at(code, place.at) {
        log_row(log, place.rows, place.at, DEAD, DEAD);
        place.meet(instruction);
        match rules.classes.of(instruction.opcode) {
            Class::If | Class::NotIf => return Stop::Conditional,
            Class::Else => return Stop::Arm(ArmEnd::Else),
            Class::EndIf => return Stop::Arm(ArmEnd::Endif),
            _ => {}
        }
    }
    Stop::Arm(ArmEnd::End)
}

/// The instructions up to the next IF, NOTIF, ELSE or ENDIF, whose row is written too, or to the end. It calls no walker, so that
/// the operations of the stacks are compiled into its loop. After a refusal `w` stands at the instruction that is refused.
pub fn plain(code: &[u8], log: &mut [u16], rules: Rules, w: &mut Walk) -> Result<Stop, Refusal>
    requires { Ready code.now log.old w.old }
    ensures { Runs (rules_in rules.entry) code.now w.old log.old w.new result log.new }
{
    let limit = rules.limit;
    let Some(stacks) = &mut w.stacks else {
        return Ok(skip(code, log, rules, &mut w.place));
    };
    // no `for`: the place moves in `w`, which keeps it where the walk stops or is refused
    loop {
        let mains = stacks.mains;
        let alts = stacks.alts;
        w.peak = w.peak.max(mains + alts);
        let Ok(Some(instruction)) = decode::decode_at(code, w.place.at) else {
            return Ok(Stop::Arm(ArmEnd::End));
        };
        log_row(log, w.place.rows, w.place.at, mains as u16, alts as u16);
        w.place.meet(instruction);
        let answer = match rules.classes.of(instruction.opcode) {
            Class::Unmodelled => {
                return Err(Refusal::Unmodelled {
                    opcode: instruction.opcode,
                });
            }
            Class::If | Class::NotIf => return Ok(Stop::Conditional),
            Class::Else => return Ok(Stop::Arm(ArmEnd::Else)),
            Class::EndIf => return Ok(Stop::Arm(ArmEnd::Endif)),
            Class::Return => {
                w.stacks = None;
                return Ok(skip(code, log, rules, &mut w.place));
            }
            Class::Nothing => Ok(()),
            Class::Push => match instruction.literal {
                Value::Unknown => {
                    if decode::too_long(code, w.place.last, w.place.at, rules.examined) {
                        let size = decode::data_size(code, w.place.last, w.place.at);
                        return Err(Refusal::LongElement { size });
                    }
                    stacks.try_push(Value::Unknown, limit)
                }
                literal => stacks.try_push(literal, limit),
            },
            Class::ToAlt => stacks.try_move_to_alt(),
            Class::FromAlt => stacks.try_move_from_alt(),
            Class::Depth => stacks.try_depth(limit),
            Class::Size => stacks.try_size(limit),
            Class::Nip => stacks.try_nip(),
            Class::Tuck => stacks.try_tuck(limit),
            Class::Pick => stacks.try_pick(limit),
            Class::Roll => stacks.try_roll(),
            Class::Zk => stacks.try_zk(limit),
            Class::Dup => stacks.try_extend_from_within(1, 1, limit),
            Class::TwoDup => stacks.try_extend_from_within(2, 2, limit),
            Class::ThreeDup => stacks.try_extend_from_within(3, 3, limit),
            Class::Over => stacks.try_extend_from_within(2, 1, limit),
            Class::TwoOver => stacks.try_extend_from_within(4, 2, limit),
            Class::Rot => stacks.try_rotate_left(3, 1),
            Class::TwoRot => stacks.try_rotate_left(6, 2),
            Class::Swap => stacks.try_rotate_left(2, 1),
            Class::TwoSwap => stacks.try_rotate_left(4, 2),
            Class::Effect10 => stacks.try_apply_effect(1, 0, limit),
            Class::Effect20 => stacks.try_apply_effect(2, 0, limit),
            Class::Effect01 => stacks.try_apply_effect(0, 1, limit),
            Class::Effect11 => stacks.try_apply_effect(1, 1, limit),
            Class::Effect31 => stacks.try_apply_effect(3, 1, limit),
            Class::Effect21 => stacks.try_apply_effect(2, 1, limit),
        };
        answer?;
    }
}
