//! What the compiler promises, in one clause over definitions: rows in memory and three words become a listing.
#![tactic(auto)]

mod answer;
mod compiling;
mod program;

pub use answer::Answer;
pub use compiling::compile_rows;
pub use program::{Ended, run_rows};
