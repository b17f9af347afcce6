//! Why an annotation has no text.
use std::alloc::AllocError;
use thiserror::Error;

/// Why an annotation has no text.
#[derive(Debug, Drop, Error)]
pub enum TextError {
    /// An f-string stands in it.
    #[error("f-string in a postponed annotation")]
    FString,
    /// There is no memory for the text.
    #[error("out of memory")]
    OutOfMemory,
}

impl From<AllocError> for TextError {
    ghost use Rattle.std.specs.Prelude.{◌≡◌};
    ghost use Rattle.py_annotation_text.specs.declared.error.TextError.TheVariants.{OutOfMemory};

    ghost from_gives = { λ _ e. e ≡ OutOfMemory };

    fn from(_e: AllocError) -> TextError {
        TextError::OutOfMemory
    }
}
