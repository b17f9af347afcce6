//! The law of rows: the format says the same as the reader.
#![tactic(auto)]

mod laws;

pub use laws::format_is_read;
