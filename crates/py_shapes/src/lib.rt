//! Which shapes of nodes are wrong.
#![tactic(auto)]

mod checks_exprs;
mod checks_parts;
mod checks_stmts;
mod names;
mod numbers;
mod parameters;
mod validity;

pub use validity::{valid, valid_body, valid_expr};
