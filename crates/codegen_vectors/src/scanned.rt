//! Symbol tables and sets of names, under the paths by which codegen shows them.

use crate::answers::{path, refusal_line};
use codegen::ir::NameSet;
use codegen::symboltable::{IntoCodegenError, Scan, SymbolTable};
use py_tree::Mod;
use std::alloc::{AllocError, Global};

/// The names of a file's own scope, or the line that says why it is refused.
pub fn scanned(alloc: Global, tree: &Mod) -> Result<String, AllocError> {
    let Mod::Module(program) = tree else {
        return String::from_str(alloc, "no file\n");
    };
    match <SymbolTable as Scan>::scan_program(alloc, &program.body) {
        Ok(table) => names_of(alloc, &table),
        Err(error) => {
            let error = IntoCodegenError::into_codegen_error(error, path(alloc)?);
            refusal_line(alloc, &error)
        }
    }
}

/// The names of a table in a line after its own, each with what it is and its place in a set of them.
fn names_of(alloc: Global, table: &SymbolTable) -> Result<String, AllocError> {
    let mut names = NameSet::new(alloc);
    let mut line = format!(in alloc; "{}:", table.name.as_str())?;
    for i in 0..table.symbols.len() {
        let Some(symbol) = table.symbols.get_index(i) else {
            continue;
        };
        if names.insert_full(symbol.name.try_clone(alloc)?).is_err() {
            return Err(AllocError);
        }
        let place = names.get_index_of(&symbol.name);
        let name = symbol.name.as_str();
        let is_found = table.lookup(name).is_some();
        line.push_str(format!(in alloc;
            " {name} {:?} {place:?} {is_found}",
            symbol.scope
        )?.as_str())?;
    }
    line.push_str("\n")?;
    Ok(line)
}
