// The limit check: an entry of its own, not part of marking a paper.

#![tactic(auto)]

ghost use Rattle.std.specs.Prelude.{◌≡◌};
ghost use Rattle.definition.specs.Papers.{limit_check};
ghost use Rattle.limits.specs.View.{answer_of};

use refusals::{Refusal, Refused};

const MAX_OPS_PER_SCRIPT: u64 = 201;

const MAX_SCRIPTS_SIZE: usize = 10000;

// Opcodes up to this one are not counted.
const NO_COST_OPCODE: u8 = 0x60;

/// Whether the bytecode is whole, has at most 201 operations and at most 10,000 bytes.
#[tactic(auto, using(crate::proofs::Operations::counting))]
pub fn validate_txscript_bytecode_limits(bytecode: &[u8]) -> Result<(), Refused>
    ensures { answer_of result ≡ limit_check bytecode.now }
{
    let mut offset = 0;
    let mut count = 0;
    // no `for`: where the next instruction starts is in the last one, and an iterator would have to keep that it has failed besides
    while let Some((opcode, next)) = decode::opcode_at(bytecode, offset)? {
        offset = next;
        count += u64::from(opcode > NO_COST_OPCODE);
    }
    if count > MAX_OPS_PER_SCRIPT {
        return Err(Refusal::OpcodeCount { count }.into());
    }
    let length = bytecode.len();
    if length > MAX_SCRIPTS_SIZE {
        return Err(Refusal::ScriptSize { length }.into());
    }
    Ok(())
}
