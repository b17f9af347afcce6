//! Why a question has no answer.

use py_base::{CodegenError, CodegenErrorType};
use py_rows::RowsError;
use py_scope::{ScanFault, SymbolTableError};
use std::alloc::{AllocError, Global};

/// Why a question has no answer.
#[derive(Debug, Drop)]
pub enum Failure {
    /// The line is no question, or the tree is none that it can be asked of.
    Line,
    /// The rows are those of no tree.
    Rows(RowsError),
    /// The call refuses.
    Refused(CodegenError),
    /// The scopes are refused.
    Scopes(SymbolTableError),
    /// There is no memory.
    OutOfMemory,
}

impl Failure {
    /// Why there is no answer.
    ///
    /// # Errors
    /// There is no memory.
    pub fn text(&self, alloc: Global) -> Result<String, AllocError> {
        match self {
            Failure::Line => String::from_str(alloc, "no question"),
            Failure::Rows(error) => format!(in alloc; "{error}"),
            Failure::Refused(error) => refusal_text(alloc, &error.error),
            Failure::Scopes(error) => scan_text(alloc, &error.error),
            Failure::OutOfMemory => Err(AllocError),
        }
    }
}

/// The text of a refusal, after the name of the feature that no Python knows.
fn refusal_text(alloc: Global, error: &CodegenErrorType) -> Result<String, AllocError> {
    match error {
        CodegenErrorType::OutOfMemory => Err(AllocError),
        CodegenErrorType::InvalidFutureFeature(name) => format!(in alloc; "{name:?}: {error}"),
        _ => format!(in alloc; "{error}"),
    }
}

fn scan_text(alloc: Global, fault: &ScanFault) -> Result<String, AllocError> {
    match fault {
        ScanFault::OutOfMemory => Err(AllocError),
        _ => format!(in alloc; "{fault:?}"),
    }
}

impl From<RowsError> for Failure {
    fn from(error: RowsError) -> Failure {
        Failure::Rows(error)
    }
}

impl From<CodegenError> for Failure {
    fn from(error: CodegenError) -> Failure {
        Failure::Refused(error)
    }
}

impl From<SymbolTableError> for Failure {
    fn from(error: SymbolTableError) -> Failure {
        Failure::Scopes(error)
    }
}

impl From<AllocError> for Failure {
    fn from(_error: AllocError) -> Failure {
        Failure::OutOfMemory
    }
}
