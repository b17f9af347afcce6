//! Scopes laid out in a row.
ghost use Rattle.std.specs.Prelude.{◌≡◌, ◌<◌};

use py_scope::{FlatScopes, Steps, SymbolTable};
use std::alloc::{AllocError, Global};
use std::fmt::Write;
use std::marker::Brand;
use std::sync::ledger::{Blank, Ledger};

/// The number after the last scope inside scope `i`.
fn next_of<L: Ledger>(scopes: &FlatScopes, blank: Blank, i: usize) -> Option<usize>
    requires name { blank.name ≡ L.name }
    requires parts { blank.parts ≡ L.parts }
    requires shared { 0 < blank.parts }
{
    let (book, share) = blank.open::<L>();
    let mut steps = Steps::new(book, share);
    if i < scopes.len() {
        Some(scopes.after(i, &mut steps))
    } else {
        None
    }
}

/// The number after a scope. None where the table does not have the scope.
fn next_at(scopes: &FlatScopes, i: usize) -> Option<usize> {
    next_of::<Brand>(scopes, Blank::new(1), i)
}

/// The numbers after the scopes of a table, and of one scope that it does not have.
pub fn nexts(alloc: Global, table: SymbolTable) -> Result<String, AllocError> {
    let scopes = FlatScopes::from_table(alloc, table)?;
    let mut line = String::from_str(alloc, "next")?;
    for i in 0..=scopes.len() {
        let next = next_at(&scopes, i);
        write!(line, " {i}: {next:?}")?;
    }
    Ok(line)
}
