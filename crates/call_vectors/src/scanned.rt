//! Scans as calls of a symbol table, and their errors as those of the compile calls.

use crate::failure::Failure;
use py_base::Text;
use py_calls::{IntoCodegenError, Scan};
use py_scope::{SymbolScope, SymbolTable, SymbolTableError};
use py_tree::Mod;
use std::alloc::{AllocError, Global};
use std::mem;

/// The Debug text of the table, or the place and the text of the fault.
fn shown(
    alloc: Global,
    table: Result<SymbolTable, SymbolTableError>,
) -> Result<String, AllocError> {
    match table {
        Ok(table) => format!(in alloc; "{table:?}"),
        Err(error) => {
            let path = Text::from_string(String::from_str(alloc, "m.py")?);
            let error = IntoCodegenError::into_codegen_error(error, path);
            let row = error.location.map_or(0, |at| at.row.get());
            format!(in alloc; "{row} {} {}", error.source_path.as_str(), error.error)
        }
    }
}

/// What the scan of any tree answers.
fn scanned(alloc: Global, program: &Mod) -> Result<String, Failure> {
    let table = match program {
        Mod::Module(m) => <SymbolTable as Scan>::scan_program(alloc, &m.body),
        Mod::Expression(m) => <SymbolTable as Scan>::scan_expr(alloc, &m.body),
        _ => return Err(Failure::Line),
    };
    Ok(shown(alloc, table)?)
}

/// What the scan of a tree answers whose nesting, size and shapes are right.
fn scanned_alone(alloc: Global, program: &Mod) -> Result<String, Failure> {
    let table = match program {
        Mod::Module(m) => <SymbolTable as Scan>::scan_body(alloc, &m.body),
        Mod::Expression(m) => <SymbolTable as Scan>::scan_value(alloc, &m.body),
        _ => return Err(Failure::Line),
    };
    Ok(shown(alloc, table)?)
}

/// What both answer, the second of a tree whose nesting, size and shapes are right.
pub fn scanned_twice(alloc: Global, program: &Mod) -> Result<String, Failure> {
    let whole = scanned(alloc, program)?;
    let alone = scanned_alone(alloc, program)?;
    Ok(format!(in alloc; "{whole}; {alone}")?)
}

/// What the name is in the scope.
fn scope_of(table: Option<&SymbolTable>, name: &str) -> Option<SymbolScope> {
    match table?.lookup(name) {
        Some(symbol) => Some(symbol.scope),
        None => None,
    }
}

/// What f is in the table, and x in the nested scope and in the one within that.
fn kinds(table: &SymbolTable) -> [Option<SymbolScope>; 3] {
    let function = table.sub_tables.get(0);
    let lambda = match function {
        Some(function) => function.sub_tables.get(0),
        None => None,
    };
    [
        scope_of(Some(table), "f"),
        scope_of(function, "x"),
        scope_of(lambda, "x"),
    ]
}

/// The table of a file.
fn table_of(alloc: Global, program: &Mod) -> Result<SymbolTable, Failure> {
    match program {
        Mod::Module(m) => Ok(<SymbolTable as Scan>::scan_program(alloc, &m.body)?),
        _ => Err(Failure::Line),
    }
}

/// The same of a table and of a copy of it.
pub fn kinds_of(alloc: Global, program: &Mod) -> Result<String, Failure> {
    let table = table_of(alloc, program)?;
    let copy = table.try_clone(alloc);
    let given = kinds(&table);
    mem::drop(table);
    let same = kinds(&copy?);
    Ok(format!(in alloc; "{given:?} {same:?}")?)
}
