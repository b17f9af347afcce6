//! What a symbol is, and how it is found in a scope.

use bitflags::Flags;
use py_base::Text;
use py_scope::{Symbol, SymbolFlags, SymbolScope, SymbolTable};
use std::alloc::{AllocError, Global};

fn scope_named(name: &str) -> SymbolScope {
    match name {
        "Local" => SymbolScope::Local,
        "GlobalExplicit" => SymbolScope::GlobalExplicit,
        "GlobalImplicit" => SymbolScope::GlobalImplicit,
        "Free" => SymbolScope::Free,
        "Cell" => SymbolScope::Cell,
        _ => SymbolScope::Unknown,
    }
}

/// Whether a symbol of this kind and with these flags is global, local and bound.
pub fn kind_text(alloc: Global, words: &str) -> Result<String, AllocError> {
    let (scope, flags) = words.split_once(' ').unwrap_or((words, ""));
    let Ok(bits) = flags.parse::<u16>() else {
        return String::from_str(alloc, "no flags");
    };
    let symbol = Symbol {
        name: Text::from_string(String::from_str(alloc, "x")?),
        scope: scope_named(scope),
        flags: SymbolFlags::from_bits_retain(bits),
    };
    let is_global = symbol.is_global();
    let is_local = symbol.is_local();
    format!(in alloc; "{is_global} {is_local} {}", symbol.is_bound())
}

/// What the name is in this scope. None where the scope does not have it.
fn scope_of(table: &SymbolTable, name: &str) -> Option<SymbolScope> {
    match table.lookup(name) {
        Some(symbol) => Some(symbol.scope),
        None => None,
    }
}

/// What f and x are in the table, x in the nested scope and in the one within that, and a copy of the first symbol.
pub fn found(alloc: Global, table: &SymbolTable) -> Result<String, AllocError> {
    let Some(function) = table.sub_tables.get(0) else {
        return String::from_str(alloc, "no scope within");
    };
    let Some(lambda) = function.sub_tables.get(0) else {
        return String::from_str(alloc, "no scope within that");
    };
    let Some(symbol) = table.symbols.get("f") else {
        return String::from_str(alloc, "no symbol");
    };
    let copy = symbol.try_clone(alloc)?;
    let outer = format!(in alloc; "{:?} {:?}", scope_of(table, "f"), scope_of(table, "x"))?;
    let inner = format!(in alloc; "{:?} {:?}", scope_of(function, "x"), scope_of(lambda, "x"))?;
    let name = copy.name.as_str();
    format!(in alloc;
        "{outer} {inner} {name} {:?} {}",
        copy.scope,
        copy.flags.bits()
    )
}
