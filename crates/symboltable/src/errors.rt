//! Errors of symbol tables as those of the compile calls.
ghost use Rattle.std.specs.Prelude.{◌≡◌};
ghost use Rattle.symboltable.specs.Errors.{codegen_error};

use py_base::{CodegenError, CodegenErrorType, LocatedError, Text};
use py_scope::{ScanFault, SymbolTableError};

fn codegen_error(fault: ScanFault) -> CodegenErrorType
    ensures { result ≡ codegen_error fault }
{
    match fault {
        ScanFault::Text(text) => CodegenErrorType::SyntaxError(text),
        ScanFault::Malformed(shape) => CodegenErrorType::MalformedTree(shape),
        ScanFault::TooLarge(limit) => CodegenErrorType::TooLarge(limit),
        ScanFault::OutOfMemory => CodegenErrorType::OutOfMemory,
    }
}

/// The error as one of the compile calls, at the same location, with the path of the source.
pub fn into_codegen_error(error: SymbolTableError, source_path: Text) -> CodegenError
    ensures error { result.error ≡ codegen_error error.error }
    ensures location { result.location ≡ error.location }
    ensures path { result.source_path ≡ source_path }
{
    let SymbolTableError { error, location } = error;
    LocatedError {
        error: codegen_error(error),
        location,
        source_path,
    }
}

/// The error of a symbol table as one of the compile calls.
pub trait IntoCodegenError: Sized {
    /// The same error at the same location, with the path of the source. It takes no memory.
    fn into_codegen_error(self, source_path: Text) -> CodegenError;
}

impl IntoCodegenError for SymbolTableError {
    fn into_codegen_error(self, source_path: Text) -> CodegenError
        ensures error { result.error ≡ codegen_error self.error }
        ensures location { result.location ≡ self.location }
        ensures path { result.source_path ≡ source_path }
    {
        into_codegen_error(self, source_path)
    }
}
