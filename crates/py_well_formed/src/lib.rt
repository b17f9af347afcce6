//! Whether code objects are well formed, as those in a file may not be: what a machine relies on beside its walks over
//! units.
#![tactic(auto)]

pub mod fault;
pub mod former;
mod lines;
mod search;
mod tables;
mod units;

pub use fault::{FormFault, FormFaultKind};
pub use former::well_formed;
