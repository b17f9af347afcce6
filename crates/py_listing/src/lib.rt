//! The listing of a code object: its text, and the texts of the codes among its constants.
#![tactic(auto)]

mod cases;
mod constants;
mod details;
mod disassembly;
mod lines;
mod numbers;
mod quotes;
mod texts;

pub use cases::push_case;
pub use constants::push_constant;
pub use disassembly::listing;
