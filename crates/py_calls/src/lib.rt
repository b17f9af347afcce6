//! Calls on an emitter one at a time, and what is asked of a tree before: for users that take the compiler apart.
//! No call asks that nodes are of the right shapes. One of a wrong shape may be refused with MalformedTree, at the
//! present location, and that is no compile fault.
#![tactic(auto)]

mod comprehensions;
mod functions;
mod futures;
mod statements;
pub mod tree;

pub use comprehensions::{ComprehensionParts, compile_comprehension};
pub use functions::enter_function;
pub use futures::compile_future_features;
pub use py_emit::{CompileOpts, EmitContext, Emitter, NameUsage, ScopeHead};
pub use py_expr::{
    compile_call_inner, compile_delete, compile_expression, compile_jump_if, compile_store,
};
pub use py_expr_parts::calls::CallType;
pub use py_expr_scopes::awaits::contains_await;
pub use py_stmt_parts::{find_ann, split_doc};
pub use statements::{compile_statement, compile_statements};
pub use symboltable::{IntoCodegenError, Scan};
