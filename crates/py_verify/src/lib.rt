//! Whether code objects are sound, as those in a file may not be: walks over their units, and over those of the codes
//! within them.
#![tactic(auto)]

pub mod laws;
mod operands;
mod search;
pub mod verdict;
pub mod verifier;
mod walk;

pub use verdict::{Flaw, FlawKind, Verdict};
pub use verifier::verify;
