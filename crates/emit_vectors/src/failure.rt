//! Why a case has no answer.

use py_base::{CodegenError, SourceLocation};
use py_scope::SymbolTableError;
use std::alloc::{AllocError, AllocFailed, Global};

/// Why a case has no answer.
#[derive(Debug, Drop)]
pub enum Failure {
    /// The line is no case, or a word of it is none.
    Line,
    /// The call refuses.
    Refused(CodegenError),
    /// There is no memory.
    OutOfMemory,
}

impl From<CodegenError> for Failure {
    fn from(error: CodegenError) -> Failure {
        Failure::Refused(error)
    }
}

impl From<AllocError> for Failure {
    fn from(_error: AllocError) -> Failure {
        Failure::OutOfMemory
    }
}

impl<T: Drop> From<AllocFailed<T>> for Failure {
    fn from(_error: AllocFailed<T>) -> Failure {
        Failure::OutOfMemory
    }
}

/// The scans here are refused only when memory runs out.
impl From<SymbolTableError> for Failure {
    fn from(_error: SymbolTableError) -> Failure {
        Failure::OutOfMemory
    }
}

/// A place as rows and columns are written.
pub fn place_text(alloc: Global, place: SourceLocation) -> Result<String, AllocError> {
    format!(in alloc; "{}:{}", place.row.get(), place.column.get())
}

/// An error with its place and its path.
pub fn error_text(alloc: Global, error: &CodegenError) -> Result<String, AllocError> {
    let path = error.source_path.as_str();
    match error.location {
        Some(place) => {
            let place = place_text(alloc, place)?;
            format!(in alloc; "{path:?} {place} {}", error.error)
        }
        None => format!(in alloc; "{path:?} -:- {}", error.error),
    }
}
