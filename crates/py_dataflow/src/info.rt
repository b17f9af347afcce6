//! Instructions before they have units: with the number of the block they jump to and their place in the source.
use py_base::SourceLocation;
use py_bytecode::{Instruction, OpArg};

/// The number of a block.
#[derive(Clone, Copy, PartialEq, Eq, Debug)]
pub struct BlockIdx(pub u32);

impl BlockIdx {
    /// No block.
    pub const NULL: BlockIdx = BlockIdx(0xffff_ffff);
}

/// An instruction with its operand, the block that it jumps to, and its place in the source.
#[derive(Clone, Copy, Debug)]
pub struct InstructionInfo {
    pub instr: Instruction,
    pub arg: OpArg,
    pub target: BlockIdx,
    pub location: SourceLocation,
}
