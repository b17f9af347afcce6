//! The machine on a code object, run over a script of answers.
#![tactic(auto)]

mod acts;
mod blocks;
pub mod held;
mod leaving;
pub mod machine;
mod moves;
mod names;
mod operations;
mod parts;
pub mod pile;
mod questions;
mod run;

pub use run::run_code;
