//! A run of the program: words and an input in, a text or a line that says why not out.
#![tactic(auto)]

mod compiling;
mod counts;
mod engine;
pub mod laws;
mod lines;
mod naming;
mod preparing;
mod reading;
mod report;
mod sampling;
mod stepping;
mod unpacking;
mod words;
mod writing;

pub use engine::run;
pub use report::{Report, Status};
pub use words::Words;
