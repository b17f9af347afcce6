//! Why a call gave no answer.

use codegen::error::CodegenError;
use py_base::CodegenErrorType;
use py_codefile::{ReadCodeError, WriteCodeError};
use py_ir::FinalizeError;
use py_rows::RowsError;
use py_scope::{ScanFault, SymbolTableError};
use std::alloc::AllocError;
use std::io;

/// Why a call gave no answer.
#[derive(Clone, Copy, Debug, PartialEq, Eq)]
pub enum Failure {
    /// What it was given is refused.
    Refused,
    /// No call has the name.
    Unknown,
    /// The input is too long, or could not be read.
    Input,
    /// There was no memory.
    OutOfMemory,
}

impl Failure {
    /// The status that the process ends with.
    pub fn status(self) -> u8 {
        match self {
            Failure::Refused => 1,
            Failure::Unknown => 2,
            Failure::Input => 3,
            Failure::OutOfMemory => 6,
        }
    }
}

/// Refused, or out of memory.
fn refused_unless(is_memory: bool) -> Failure {
    if is_memory {
        Failure::OutOfMemory
    } else {
        Failure::Refused
    }
}

impl From<AllocError> for Failure {
    fn from(_error: AllocError) -> Failure {
        Failure::OutOfMemory
    }
}

impl From<io::Error> for Failure {
    fn from(error: io::Error) -> Failure {
        if error.kind() == io::ErrorKind::OutOfMemory {
            Failure::OutOfMemory
        } else {
            Failure::Input
        }
    }
}

impl From<RowsError> for Failure {
    fn from(error: RowsError) -> Failure {
        refused_unless(matches!(&error, RowsError::OutOfMemory))
    }
}

impl From<SymbolTableError> for Failure {
    fn from(error: SymbolTableError) -> Failure {
        refused_unless(matches!(&error.error, ScanFault::OutOfMemory))
    }
}

impl From<CodegenError> for Failure {
    fn from(error: CodegenError) -> Failure {
        refused_unless(matches!(&error.error, CodegenErrorType::OutOfMemory))
    }
}

impl From<FinalizeError> for Failure {
    fn from(error: FinalizeError) -> Failure {
        refused_unless(matches!(&error, FinalizeError::OutOfMemory))
    }
}

impl From<WriteCodeError> for Failure {
    fn from(error: WriteCodeError) -> Failure {
        refused_unless(matches!(&error, WriteCodeError::OutOfMemory))
    }
}

impl From<ReadCodeError> for Failure {
    fn from(error: ReadCodeError) -> Failure {
        refused_unless(matches!(&error, ReadCodeError::OutOfMemory))
    }
}
