//! The compile calls: from a syntax tree to a code object.
#![tactic(auto)]

pub mod compile;
pub mod error;
pub mod ir;
mod laws;
mod program;
mod whole;

pub use compile::CompileOpts;
pub use laws::{compiled_is_sealed, equal_trees_have_equal_code};
pub use py_stmt_parts::{find_ann, split_doc};
pub use symboltable;
