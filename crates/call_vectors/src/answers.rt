//! The answers to questions.

use crate::asked::parts;
use crate::emitted::emitted;
use crate::failure::Failure;
use crate::limits::{depths, shapes, sizes};
use crate::parts::{name_of, parameters_in};
use crate::questions::Question;
use crate::samples::sampled;
use crate::scanned::{kinds_of, scanned_twice};
use py_rows::read_rows;
use py_tree::Mod;
use std::alloc::{AllocError, Global};

/// The answer to the question of a line, or why there is none.
pub fn answer(alloc: Global, line: &str) -> Result<String, AllocError> {
    let answered = match line.strip_prefix("sample ") {
        Some(count) => sampled(alloc, count),
        None => of_rows(alloc, line),
    };
    match answered {
        Ok(text) => Ok(text),
        Err(failure) => failure.text(alloc),
    }
}

/// The answer to a question and the rows of a tree.
fn of_rows(alloc: Global, line: &str) -> Result<String, Failure> {
    let Some((question, rows)) = Question::of_line(line) else {
        return Err(Failure::Line);
    };
    if rows.len() >= 1 << 26 {
        return Err(Failure::Line);
    }
    let program = read_rows(alloc, rows.as_bytes())?;
    let answered = of_tree(alloc, question, &program);
    program.discard();
    answered
}

/// The answer to a question about a tree.
fn of_tree(alloc: Global, question: Question, program: &Mod) -> Result<String, Failure> {
    match question {
        Question::Emits(call) => emitted(alloc, call, program),
        Question::Parts => parts(alloc, program),
        Question::Depth(limit) => Ok(depths(alloc, program, limit)?),
        Question::Size(limit) => Ok(sizes(alloc, program, limit)?),
        Question::Shape(mode) => Ok(shapes(alloc, program, mode)?),
        Question::Name => Ok(String::from_str(alloc, name_of(program))?),
        Question::Parameters => Ok(parameters_in(alloc, program)?),
        Question::Table => scanned_twice(alloc, program),
        Question::Kinds => kinds_of(alloc, program),
    }
}
