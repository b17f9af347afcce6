//! The words MODE and LEVEL, and the lines that say why rows have no listing.
#![tactic(auto)]

mod lines;
mod words;

pub use lines::{input_line, refusal_line, too_long_line};
pub use words::{level_of, mode_of};
