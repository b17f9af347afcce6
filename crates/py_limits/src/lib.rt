//! How deep a tree nests and how large it is, against a limit.
#![tactic(auto)]

mod depth;
mod depth_exprs;
mod depth_parts;
mod depth_stmts;
mod size;
mod size_exprs;
mod size_parts;
mod size_stmts;

pub use depth::{depth_of_body, depth_of_expr, depth_of_tree};
pub use size::{size_of_body, size_of_expr, size_of_tree};
