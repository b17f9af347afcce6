//! The answers to cases.

use crate::blocks::{entries, finalized, lent_block};
use crate::calls::made;
use crate::emitters::{in_file, in_function, in_module};
use crate::failure::{Failure, error_text};
use crate::instructions::{instruction_text, operand_text, unpacking_text};
use crate::tables::{dropped, entered};
use crate::values::{constants, flags, lists, names, texts};
use std::alloc::{AllocError, Global};

/// The answer to the case of a line, or why there is none.
pub fn answer(alloc: Global, line: &str) -> Result<String, AllocError> {
    match answered(alloc, line) {
        Ok(text) => Ok(text),
        Err(Failure::Line) => String::from_str(alloc, "no case"),
        Err(Failure::Refused(error)) => error_text(alloc, &error),
        Err(Failure::OutOfMemory) => Err(AllocError),
    }
}

/// The answer to the case of a line: a name and what it is about.
fn answered(alloc: Global, line: &str) -> Result<String, Failure> {
    let (name, rest) = line.split_once(' ').unwrap_or((line, ""));
    match name {
        "module" | "file" | "function" => over_emitter(alloc, name, rest),
        "table" => over_table(alloc, rest),
        "blocks" => finalized(alloc, rest),
        "lent" => lent_block(alloc, rest),
        "entries" => entries(alloc, rest),
        "instruction" => instruction_text(alloc, rest),
        "operand" => operand_text(alloc, rest),
        "unpacking" => unpacking_text(alloc, rest),
        "texts" => texts(alloc, rest),
        "lists" => lists(alloc, rest),
        "constants" => constants(alloc, rest),
        "names" => names(alloc, rest),
        "flags" => flags(alloc, rest),
        _ => Err(Failure::Line),
    }
}

/// Calls of an emitter at a level: in a module without names, in a file, or in its function.
fn over_emitter(alloc: Global, name: &str, rest: &str) -> Result<String, Failure> {
    let (level, calls) = rest.split_once(' ').ok_or(Failure::Line)?;
    let optimize = level.parse::<u8>().map_err(|_| Failure::Line)?;
    let mut em = match name {
        "module" => in_module(alloc, optimize)?,
        "file" => in_file(alloc, optimize)?,
        _ => in_function(alloc, optimize)?,
    };
    made(alloc, &mut em, calls)
}

/// The table of a nested scope that is entered, or dropped, each by a counted step.
fn over_table(alloc: Global, name: &str) -> Result<String, Failure> {
    match name {
        "entered" => entered(alloc),
        "dropped" => dropped(alloc),
        _ => Err(Failure::Line),
    }
}
