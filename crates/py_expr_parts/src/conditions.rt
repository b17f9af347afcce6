//! Where a test jumps, and the jumps of `and` and `or`.
ghost use Rattle.std.specs.Prelude.{◌≡◌, if◌then◌else◌};
ghost use Rattle.py_emission_parts.specs.TableParts.{deciding_truth};
ghost use Rattle.py_emission_parts.specs.EmissionParts.{keeping_jump, testing_jump};

use py_bytecode::Instruction;
use py_ir::BlockIdx;
use py_tree::BoolOp;

/// Where a test jumps: to the block, where the truth is this.
#[derive(Clone, Copy)]
pub struct JumpIf {
    /// The truth at which it jumps.
    pub truth: bool,
    /// The block to which it jumps.
    pub block: BlockIdx,
}

/// The truth at which a value decides.
pub fn deciding(op: BoolOp) -> bool
    ensures { result ≡ deciding_truth op }
{
    match op {
        BoolOp::And => false,
        BoolOp::Or => true,
    }
}

/// The jump that keeps a value where its truth is this.
pub fn keeping_jump(truth: bool) -> Instruction
    ensures { result ≡ keeping_jump truth }
{
    if truth {
        Instruction::JumpIfTrueOrPop
    } else {
        Instruction::JumpIfFalseOrPop
    }
}

/// The jump that takes a value off where it tests its truth.
pub fn testing_jump(truth: bool) -> Instruction
    ensures { result ≡ testing_jump truth }
{
    if truth {
        Instruction::JumpIfTrue
    } else {
        Instruction::JumpIfFalse
    }
}

/// The first where more tests follow, else the last.
pub fn either<'a>(more: bool, stop: &'a JumpIf, last: &'a JumpIf) -> &'a JumpIf
    ensures { result.now ≡ (if more then stop.now else last.now) }
{
    if more { stop } else { last }
}
