//! What is written of a case.

use bitflags::Flags;
use py_base::CodegenError;
use py_rows::read_rows;
use py_tree::{Mod, Text};
use std::alloc::{AllocError, Global};
use std::fmt::Write;
use symboltable::{
    Symbol, SymbolTable, SymbolTableError, into_codegen_error, scan_expr, scan_program,
};

/// The line of a symbol: its name, its kind, and its flags in hexadecimal digits.
fn push_symbol(out: &mut String, indent: &str, symbol: &Symbol) -> Result<(), AllocError> {
    let name = symbol.name.as_str();
    let flags = symbol.flags.bits();
    writeln!(out, "{indent}{name} {:?} {flags:03x}", symbol.scope)
}

/// The line of a scope, which says its kind, its name and the line of the source on which it begins, then those of its
/// symbols and of the scopes in it.
fn push_table(
    alloc: Global,
    out: &mut String,
    indent: &str,
    table: &SymbolTable,
) -> Result<(), AllocError> {
    let name = table.name.as_str();
    let nested = if table.is_nested { ", nested" } else { "" };
    let line = table.line_number;
    writeln!(out, "{indent}{} {name}, line {line}{nested}", table.typ)?;
    let within = format!(in alloc; "{indent} ")?;
    for i in 0..table.symbols.len() {
        if let Some(symbol) = table.symbols.get_index(i) {
            push_symbol(out, within.as_str(), symbol)?;
        }
    }
    for sub_table in table.sub_tables.as_slice() {
        push_table(alloc, out, within.as_str(), sub_table)?;
    }
    Ok(())
}

/// Where the fault stands, and what it is.
fn refusal_line(alloc: Global, error: &CodegenError) -> Result<String, AllocError> {
    match error.location {
        Some(at) => { format!(in alloc; "{}:{} {}\n", at.row.get(), at.column.get(), error.error) }
        None => format!(in alloc; "-:- {}\n", error.error),
    }
}

fn refusal(alloc: Global, error: SymbolTableError) -> Result<String, AllocError> {
    refusal_line(
        alloc,
        &into_codegen_error(error, Text::from_string(String::new(alloc))),
    )
}

fn table_of(alloc: Global, tree: &Mod) -> Option<Result<SymbolTable, SymbolTableError>> {
    match tree {
        Mod::Module(program) => Some(scan_program(alloc, &program.body)),
        Mod::Interactive(program) => Some(scan_program(alloc, &program.body)),
        Mod::Expression(program) => Some(scan_expr(alloc, &program.body)),
        Mod::FunctionType(_) => None,
    }
}

/// The lines of the symbol table of the tree whose rows these are, or the line that says why there is none.
pub fn answer(alloc: Global, rows: &str) -> Result<String, AllocError> {
    if rows.len() >= 1 << 26 {
        return String::from_str(alloc, "input: too long\n");
    }
    let tree = match read_rows(alloc, rows.as_bytes()) {
        Ok(tree) => tree,
        Err(error) => return format!(in alloc; "input: {error}\n"),
    };
    let table = table_of(alloc, &tree);
    tree.discard();
    match table {
        None => String::from_str(alloc, "a type of a function has no scopes\n"),
        Some(Err(error)) => refusal(alloc, error),
        Some(Ok(table)) => {
            let mut out = String::new(alloc);
            push_table(alloc, &mut out, "", &table)?;
            Ok(out)
        }
    }
}
