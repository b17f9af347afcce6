//! How many scopes stand in a part of a tree.
#![tactic(auto)]

mod scopes;

pub use scopes::{scopes_in_annotations, scopes_in_expr, scopes_in_opt};
