//! The made program of any number of statements.

use crate::failure::Failure;
use py_base::NESTING_LIMIT;
use py_calls::tree::{depth_of_tree, size_of_tree};
use py_sample::sample;
use py_tree::{Mod, Stmt};
use std::alloc::{AllocError, Global};
use std::fmt::Write;

fn kind_of(statement: &Stmt) -> &'static str {
    match statement {
        Stmt::Assign(_) => "assignment",
        Stmt::If(_) => "choice",
        Stmt::FunctionDef(_) => "function",
        Stmt::While(_) => "loop",
        _ => "another",
    }
}

/// What each statement is, and its row.
fn statements_of(alloc: Global, program: &Mod) -> Result<String, AllocError> {
    let mut words = String::new(alloc);
    if let Mod::Module(m) = program {
        for statement in m.body.as_slice() {
            let row = statement.location().row.get();
            write!(words, "{} {row}; ", kind_of(statement))?;
        }
    }
    Ok(words)
}

/// How deep the tree nests, and how large it is.
fn measures_of(program: &Mod) -> Option<(u32, u32)> {
    let depth = depth_of_tree(program, NESTING_LIMIT)?;
    let size = size_of_tree(program, 1000)?;
    Some((depth, size))
}

/// The statements of the made program of so many, and how deep and how large it is.
pub fn sampled(alloc: Global, count: &str) -> Result<String, Failure> {
    let count = count.parse::<u32>().map_err(|_| Failure::Line)?;
    if count >= 1 << 17 {
        return Err(Failure::Line);
    }
    let program = sample(alloc, count)?;
    let words = statements_of(alloc, &program);
    let measures = measures_of(&program);
    program.discard();
    Ok(format!(in alloc; "{}{measures:?}", words?)?)
}
