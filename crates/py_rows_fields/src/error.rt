//! Why bytes are not the rows of a tree.
use std::alloc::{AllocError, AllocFailed};
use thiserror::Error;

/// Why bytes are not the rows of a tree. `row` is the number of a row, counted from 0.
#[derive(Debug, Drop, Error)]
pub enum RowsError {
    /// The bytes are not JSON.
    #[error("not JSON")]
    NotJson,
    /// The value is no array, or an empty one.
    #[error("not rows")]
    NotRows,
    /// The row has not the form of its kind.
    #[error("row {row}: wrong form")]
    WrongRow { row: u32 },
    /// An integer is outside the 128 bits of an `i128`.
    #[error("row {row}: integer too wide")]
    WideInteger { row: u32 },
    /// The row names itself or a later row.
    #[error("row {row}: later row")]
    LaterRow { row: u32 },
    /// The row names a row of a kind that the field does not take.
    #[error("row {row}: wrong kind")]
    WrongKind { row: u32 },
    /// The row names a row that was named before.
    #[error("row {row}: named twice")]
    NamedTwice { row: u32 },
    /// The row's nesting is 2^10 or more.
    #[error("row {row}: too deep")]
    TooDeep { row: u32 },
    /// The last row is no module.
    #[error("no module")]
    NoMod,
    /// No row names this one, and it is not the last. It is the lowest such row.
    #[error("row {row}: not named")]
    NotNamed { row: u32 },
    /// There is no memory for the tree.
    #[error("out of memory")]
    OutOfMemory,
}

impl From<AllocError> for RowsError {
    ghost use Rattle.std.specs.Prelude.{◌≡◌};
    ghost use Rattle.py_rows_fields.specs.declared.error.RowsError.TheVariants.{OutOfMemory};

    ghost from_gives = { λ _ e. e ≡ OutOfMemory };

    fn from(_e: AllocError) -> RowsError {
        RowsError::OutOfMemory
    }
}

impl<T: Drop> From<AllocFailed<T>> for RowsError {
    ghost use Rattle.std.specs.Prelude.{◌≡◌};
    ghost use Rattle.py_rows_fields.specs.declared.error.RowsError.TheVariants.{OutOfMemory};

    ghost from_gives = { λ _ e. e ≡ OutOfMemory };

    fn from(_e: AllocFailed<T>) -> RowsError {
        RowsError::OutOfMemory
    }
}
