//! Traces of codes: words and a file of code in, the lines of a run of one of its codes out.
#![tactic(auto)]

mod among;
mod engine;
mod places;
mod reading;
mod report;
mod tracing;
mod words;
mod writing;

pub use engine::trace;
pub use report::{Due, Report, Status};
pub use tracing::due_of;
pub use words::{Request, Words};
