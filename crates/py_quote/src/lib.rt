//! Texts and bytes in quotes, booleans and whole numbers, as Python writes them.
#![tactic(auto)]

mod plain;
mod quote;

pub use plain::{push_bool, push_decimal};
pub use quote::{is_escaped, push_quote, push_quote_bytes};
