//! The walk of statements that have no statements of their own to walk, over a script of answers.
#![tactic(auto)]

mod aliases;
mod assignments;
mod bodies;
mod classes;
mod decorators;
mod deletes;
mod dropped;
mod flow;
mod functions;
mod hidden;
mod imports;
mod notes;
mod raises;

pub use aliases::walk_type_alias;
pub use assignments::{walk_ann_assign, walk_assign, walk_aug_assign, walk_expr_statement};
pub use bodies::split_doc;
pub use classes::{walk_class, walk_class_def};
pub use deletes::walk_delete;
pub use flow::Flow;
pub use functions::{walk_function, walk_function_def};
pub use imports::{import_names, walk_import, walk_import_from};
pub use raises::{walk_assert, walk_raise, walk_return};
