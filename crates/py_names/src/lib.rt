//! A report on the names of a program: which are unused, unbound, shadowed or captured in which scope.
#![tactic(auto)]

mod findings;
pub mod items;
mod known;
pub mod laws;
mod lines;
mod paths;
pub mod places;
mod reports;
mod texts;
mod walks;

pub use items::{NameItem, NameKind, NameReport};
pub use lines::report_lines;
pub use reports::report;
pub use texts::report_text;
