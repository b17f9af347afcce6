//! Why scopes are refused.
ghost use Rattle.std.specs.Prelude.{◌≡◌};
ghost use Rattle.py_scope.specs.Faults.{TellsRefusal, TellsNone};

use crate::refusal::Refusal;
use py_base::{Malformed, SourceLocation, Text, TreeLimit};
use std::alloc::Global;

/// Why the scopes of a program are refused.
#[derive(Debug, Drop)]
pub enum ScanFault {
    /// A syntax error, with its text.
    Text(Text),
    /// A shape that no tree of a program has.
    Malformed(Malformed),
    /// The tree has too much of something.
    TooLarge(TreeLimit),
    /// There is no memory.
    OutOfMemory,
}

/// A fault of the scopes, and where it stands in the source. The location is None where the fault has none of its own.
#[derive(Debug, Drop)]
pub struct SymbolTableError {
    pub error: ScanFault,
    pub location: Option<SourceLocation>,
}

impl SymbolTableError {
    /// The fault of a refused program, or out of memory for its text.
    pub fn refused(
        alloc: Global,
        refusal: &Refusal,
        location: Option<SourceLocation>,
    ) -> SymbolTableError
        ensures { TellsRefusal result refusal.now location }
    {
        match refusal.text(alloc) {
            Ok(text) => SymbolTableError {
                error: ScanFault::Text(text),
                location,
            },
            Err(_) => SymbolTableError::out_of_memory(),
        }
    }

    /// Out of memory, which has no location.
    pub fn out_of_memory() -> SymbolTableError
        ensures { TellsNone result }
    {
        SymbolTableError {
            error: ScanFault::OutOfMemory,
            location: None,
        }
    }
}
