//! What the interpreter of a tree over a script of answers does, the laws that it does what the tree means, and the values
//! of its run with what is done with them.
#![tactic(auto)]

mod around;
pub mod constants;
mod laws;
pub mod names;
pub mod operands;
pub mod operations;

pub use around::Around;
pub use laws::{meanings_walk, targets_walk, tests_walk, trees_walk, values_walk};
