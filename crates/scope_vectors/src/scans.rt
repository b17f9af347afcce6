//! Scans by the calls that a line names.

use py_base::{SourceLocation, Text};
use py_scope::{Role, ScopeBuilder, SymbolTable, SymbolTableError, SymbolTableType};
use std::alloc::{AllocError, Global};

fn kind_of(letter: &str) -> SymbolTableType {
    match letter {
        "+C" => SymbolTableType::Class,
        "+F" => SymbolTableType::Function,
        "+G" => SymbolTableType::Comprehension,
        "+T" => SymbolTableType::TypeParams,
        _ => SymbolTableType::Module,
    }
}

fn role_of(letter: &str) -> Role {
    match letter {
        "a" => Role::Assigned,
        "i" => Role::Imported,
        "p" => Role::Parameter,
        "n" => Role::AnnotatedParameter,
        "t" => Role::AnnotationAssigned,
        "w" => Role::Walrus,
        "r" => Role::Iterated,
        "g" => Role::Global,
        "l" => Role::Nonlocal,
        _ => Role::Used,
    }
}

/// One call of a scan: `+` with the letter of a kind, and the name, of a scope that is entered, `-` for one that is
/// left, or the letter of a role and the name that is used.
fn step(
    alloc: Global,
    builder: &mut ScopeBuilder,
    call: &str,
) -> Result<Result<(), SymbolTableError>, AllocError> {
    let Some((letter, name)) = call.split_once(" ") else {
        if !builder.is_in_module() {
            builder.leave()?;
        }
        return Ok(Ok(()));
    };
    let name = Text::from_string(String::from_str(alloc, name)?);
    if letter.starts_with("+") {
        builder.enter(kind_of(letter), name, 0)?;
        return Ok(Ok(()));
    }
    Ok(builder.register(&name, role_of(letter), SourceLocation::default()))
}

/// The table of a scan by these calls, or its refusal.
pub fn table_of(
    alloc: Global,
    calls: &str,
) -> Result<Result<SymbolTable, SymbolTableError>, AllocError> {
    let mut builder = ScopeBuilder::new(alloc)?;
    for call in calls.split("|") {
        if let Err(error) = step(alloc, &mut builder, call)? {
            return Ok(Err(error));
        }
    }
    Ok(builder.finish())
}
