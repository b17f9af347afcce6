//! The nodes that rows made, each sort in a list of its own, until a later row takes them.
#![tactic(auto)]

mod adds;
mod made;
mod nodes;
mod slots;
mod takes;

pub use adds::{
    add_alias, add_arg, add_arguments, add_case, add_comprehension, add_constant, add_default,
    add_expr, add_handler, add_item, add_keyword, add_stmt, add_type_param, set_program,
};
pub use made::Made;
pub use nodes::Nodes;
pub use slots::{
    take_aliases, take_arg, take_arguments, take_boxed_expr, take_cases, take_comprehensions,
    take_constant, take_constants, take_defaults, take_expr, take_exprs, take_handlers, take_items,
    take_keywords, take_optional_arg, take_optional_expr, take_optional_exprs, take_stmts,
    take_type_params,
};
