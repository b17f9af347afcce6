//! What messages call an expression, and the parameters of a function by whether they have a default.

use py_tree::{Arguments, Expr, Mod};
use std::alloc::{AllocError, Global};

/// What messages call the expression of this tree.
pub fn name_of(program: &Mod) -> &'static str {
    match program {
        Mod::Expression(m) => m.body.python_name(),
        _ => "no expression",
    }
}

/// The column of a default.
fn default_column(args: &Arguments, i: usize) -> u32 {
    match args.default_at(i) {
        Some(default) => default.location().column.get(),
        None => 0,
    }
}

/// The name of a keyword-only parameter with or without a default.
fn keyword_only(args: &Arguments, i: usize, with_default: bool) -> &str {
    match args.kwonly_at(i, with_default) {
        Some(parameter) => parameter.def.arg.as_str(),
        None => "-",
    }
}

/// The columns of the first two defaults, and the names of the first two keyword-only parameters without a default and with
/// one.
fn parameters(alloc: Global, args: &Arguments) -> Result<String, AllocError> {
    format!(in alloc;
        "{} {} {} {} {} {}",
        default_column(args, 0),
        default_column(args, 1),
        keyword_only(args, 0, false),
        keyword_only(args, 1, false),
        keyword_only(args, 0, true),
        keyword_only(args, 1, true)
    )
}

/// The parameters of a lambda.
fn parameters_of(alloc: Global, expr: &Expr) -> Result<String, AllocError> {
    match expr {
        Expr::Lambda(lambda) => parameters(alloc, &lambda.args),
        _ => String::from_str(alloc, "no lambda"),
    }
}

/// The parameters of the lambda that the tree is.
pub fn parameters_in(alloc: Global, program: &Mod) -> Result<String, AllocError> {
    match program {
        Mod::Expression(m) => parameters_of(alloc, &m.body),
        _ => String::from_str(alloc, "no expression"),
    }
}
