//! The walk of statements, bodies and whole trees over a script of answers.
#![tactic(auto)]

mod blocks;
mod endings;
mod files;
mod futures;
mod loops;
mod prompts;
mod statements;
mod trees;
mod tries;
mod withs;

pub use statements::{walk_statement, walk_statements};
pub use trees::{run_tree, walk_tree};
pub use tries::walk_handlers;
