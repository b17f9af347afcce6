//! The answers to cases.

use crate::flat::nexts;
use crate::scans::table_of;
use crate::stacks::lent;
use crate::symbols::{found, kind_text};
use crate::texts::{refusal_of, text_of};
use py_scope::{SymbolTable, mangle_name};
use std::alloc::{AllocError, Global};

/// The answer to the case of a line: a name and what it is about.
pub fn answer(alloc: Global, line: &str) -> Result<String, AllocError> {
    let (name, rest) = line.split_once(' ').unwrap_or((line, ""));
    match name {
        "mangle" => mangled(alloc, rest),
        "symbol" => kind_text(alloc, rest),
        "stack" => lent(alloc, rest),
        "scan" | "names" | "flat" => of_scan(alloc, name, rest),
        _ => String::from_str(alloc, "no case"),
    }
}

/// What is asked of the table of a scan, or why the scan is refused.
fn of_scan(alloc: Global, name: &str, calls: &str) -> Result<String, AllocError> {
    match table_of(alloc, calls)? {
        Ok(table) => of_table(alloc, name, table),
        Err(error) => refusal_of(alloc, &error),
    }
}

fn of_table(alloc: Global, name: &str, table: SymbolTable) -> Result<String, AllocError> {
    match name {
        "names" => found(alloc, &table),
        "flat" => nexts(alloc, table),
        _ => text_of(alloc, &table.try_clone(alloc)?),
    }
}

/// A name as the class writes it that stands before it, `-` for none, or `-` where it stays as it is.
fn mangled(alloc: Global, words: &str) -> Result<String, AllocError> {
    let (class, name) = words.split_once(' ').unwrap_or(("-", words));
    let class = if class == "-" { None } else { Some(class) };
    match mangle_name(alloc, class, name)? {
        Some(mangled) => String::from_str(alloc, mangled.as_str()),
        None => String::from_str(alloc, "-"),
    }
}
