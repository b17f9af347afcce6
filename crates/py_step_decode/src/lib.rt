//! The instructions of a code object, with what their operands name, as a machine does them.
#![tactic(auto)]

mod decoding;
pub mod instructions;

pub use decoding::decode;
pub use instructions::{Entry, Instr, Value};
