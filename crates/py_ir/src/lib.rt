//! Blocks of instructions, and the code object that they are laid out to.
#![tactic(auto)]

pub mod blocks;
pub mod chain;
pub mod checks;
pub mod constants;
pub mod error;
pub mod finalize;
pub mod flat;
pub mod flat_code;
pub mod info;
pub mod sets;
pub mod taking;

pub use blocks::{Block, Blocks};
pub use constants::ConstantSet;
pub use error::FinalizeError;
pub use flat::FlatBlocks;
pub use flat_code::FlatCode;
pub use info::CodeInfo;
pub use py_dataflow::{BlockIdx, InstructionInfo};
pub use sets::NameSet;
