//! The scan of a tree: which scopes it opens, and how each uses its names, in the order in which it is compiled.
#![tactic(auto)]

pub mod expressions;
mod simple;
pub mod statements;
mod type_params;
