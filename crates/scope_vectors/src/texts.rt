//! The texts of tables and refusals.

use bitflags::Flags;
use py_scope::{ScanFault, SymbolTable, SymbolTableError, SymbolTableType};
use std::alloc::{AllocError, Global};
use std::fmt::Write;

fn letter_of(typ: SymbolTableType) -> &'static str {
    match typ {
        SymbolTableType::Module => "M",
        SymbolTableType::Class => "C",
        SymbolTableType::Function => "F",
        SymbolTableType::Comprehension => "G",
        SymbolTableType::TypeParams => "T",
    }
}

fn push_table(out: &mut String, table: &SymbolTable) -> Result<(), AllocError> {
    write!(out, "{}{}{{", letter_of(table.typ), table.name.as_str())?;
    for i in 0..table.symbols.len() {
        if let Some(symbol) = table.symbols.get_index(i) {
            let comma = if i == 0 { "" } else { "," };
            let name = symbol.name.as_str();
            write!(
                out,
                "{comma}{name}:{:?}:{}",
                symbol.scope,
                symbol.flags.bits()
            )?;
        }
    }
    out.push_str("}[")?;
    for sub_table in table.sub_tables.as_slice() {
        push_table(out, sub_table)?;
    }
    out.push_str("]")
}

/// The letter of a scope's kind, its name, its symbols with their kinds and flags, and the scopes in it.
pub fn text_of(alloc: Global, table: &SymbolTable) -> Result<String, AllocError> {
    let mut out = String::new(alloc);
    push_table(&mut out, table)?;
    Ok(out)
}

/// The text of the refusal.
pub fn refusal_of(alloc: Global, error: &SymbolTableError) -> Result<String, AllocError> {
    match &error.error {
        ScanFault::Text(text) => format!(in alloc; "refused: {}", text.as_str()),
        _ => Err(AllocError),
    }
}
