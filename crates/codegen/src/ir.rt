//! Blocks of instructions, and the code object that they are laid out to.

pub use py_ir::{
    Block, BlockIdx, Blocks, CodeInfo, ConstantSet, FinalizeError, InstructionInfo, NameSet,
};
