//! The instructions that begin at the units of a code, each with its prefixes.
#![tactic(auto)]

mod reading;

pub use reading::{UnitRead, read_all, read_in};
