//! Instructions, code objects, and the machine that says what they do.
#![tactic(auto)]

pub mod code;
pub mod flags;
pub mod instruction;
pub mod laws;
pub mod operand;

pub use code::{CodeObject, ConstantData};
pub use flags::{CodeFlags, MakeFunctionFlags};
pub use instruction::{Instruction, OperandKind};
pub use operand::{CodeUnit, Label, OpArg, UnpackExArgs};
