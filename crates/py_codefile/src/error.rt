//! Why a code is not written, and why bytes are not read.
use std::alloc::{AllocError, AllocFailed};
use thiserror::Error;

/// Why a code has no file.
#[derive(Debug, Drop, Error)]
pub enum WriteCodeError {
    /// Codes and tuples nest 2^11 deep or more, the outermost code counting one.
    #[error("too deep")]
    TooDeep,
    /// A list has 2^32 entries or more, or a text as many bytes.
    #[error("too long")]
    TooLong,
    /// There is no memory for the file. No clause ties it to a cause.
    #[error("out of memory")]
    OutOfMemory,
}

impl From<AllocError> for WriteCodeError {
    ghost use Rattle.std.specs.Prelude.{◌≡◌};
    ghost use Rattle.py_codefile.specs.declared.error.WriteCodeError.TheVariants.{OutOfMemory};

    ghost from_gives = { λ _ e. e ≡ OutOfMemory };

    fn from(_e: AllocError) -> WriteCodeError {
        WriteCodeError::OutOfMemory
    }
}

impl<T: Drop> From<AllocFailed<T>> for WriteCodeError {
    ghost use Rattle.std.specs.Prelude.{◌≡◌};
    ghost use Rattle.py_codefile.specs.declared.error.WriteCodeError.TheVariants.{OutOfMemory};

    ghost from_gives = { λ _ e. e ≡ OutOfMemory };

    fn from(_e: AllocFailed<T>) -> WriteCodeError {
        WriteCodeError::OutOfMemory
    }
}

/// Why bytes are no file of code: the first bad field from the left. `at` is the offset of the field's first byte, in
/// bytes from the start of the file, counted from 0.
#[derive(Debug, Drop, Error)]
pub enum ReadCodeError {
    /// The first eight bytes are there and are not those that a file begins with; `at` is 0.
    #[error("{at}: no code file")]
    Magic { at: u64 },
    /// The field has more bytes than are left. The length of a text and its bytes are two fields, and so are a row
    /// and a column, an instruction's number and its byte, and each byte of a list of bytes.
    #[error("{at}: truncated")]
    Truncated { at: u64 },
    /// No instruction has this number.
    #[error("{at}: bad instruction")]
    BadOpcode { at: u64 },
    /// No kind of constant has this number; or the byte before the places of cells is above 1.
    #[error("{at}: bad tag")]
    BadTag { at: u64 },
    /// The bytes of the text are not UTF-8; `at` is that of the first of them.
    #[error("{at}: not UTF-8")]
    BadText { at: u64 },
    /// A row or a column is 0.
    #[error("{at}: zero location")]
    ZeroLocation { at: u64 },
    /// The byte of a tuple or code that would nest 2^11 deep, the outermost code counting one.
    #[error("{at}: too deep")]
    TooDeep { at: u64 },
    /// Bytes follow the code; `at` is that of the first of them.
    #[error("{at}: trailing bytes")]
    Trailing { at: u64 },
    /// There is no memory for the code. No clause ties it to a cause.
    #[error("out of memory")]
    OutOfMemory,
}

impl From<AllocError> for ReadCodeError {
    ghost use Rattle.std.specs.Prelude.{◌≡◌};
    ghost use Rattle.py_codefile.specs.declared.error.ReadCodeError.TheVariants.{OutOfMemory};

    ghost from_gives = { λ _ e. e ≡ OutOfMemory };

    fn from(_e: AllocError) -> ReadCodeError {
        ReadCodeError::OutOfMemory
    }
}

impl<T: Drop> From<AllocFailed<T>> for ReadCodeError {
    ghost use Rattle.std.specs.Prelude.{◌≡◌};
    ghost use Rattle.py_codefile.specs.declared.error.ReadCodeError.TheVariants.{OutOfMemory};

    ghost from_gives = { λ _ e. e ≡ OutOfMemory };

    fn from(_e: AllocFailed<T>) -> ReadCodeError {
        ReadCodeError::OutOfMemory
    }
}
