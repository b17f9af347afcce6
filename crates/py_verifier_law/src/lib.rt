//! The laws of the verifier: a code that a compile call answers has no verification error, and is well formed.
#![tactic(auto)]

mod laws;

pub use laws::{compiled_is_flawless, compiled_is_well_formed};
