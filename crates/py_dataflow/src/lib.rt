//! Walks over instructions: the heights of the stack and the blocks that stand at each place.
#![tactic(auto)]

pub mod flow;
pub mod info;
pub mod known;
pub mod laws;
pub mod shape;
pub mod walk;

pub use flow::{Branch, Flow, Kind, Mark, NeededBlock, Opening};
pub use info::{BlockIdx, InstructionInfo};
pub use known::Refused;
pub use walk::{Fault, depth};
