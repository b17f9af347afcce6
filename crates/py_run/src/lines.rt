//! The lines of files and of wrong words.
ghost use Rattle.std.specs.Prelude.{◌≡◌, IfOk, string_bytes};
ghost use Rattle.py_lines.specs.Lines.{input_line};
ghost use Rattle.py_run.specs.Statuses.{bad_at, file_text, flaw_text};

use py_codefile::ReadCodeError;
use std::alloc::{AllocError, Global};

/// What is written where the words have not their form.
pub const USAGE: &str = "usage: pyc MODE LEVEL PATH\n";

/// The line that says where the first bad field of a file begins.
///
/// # Errors
/// There is no memory for the line.
pub fn file_line(alloc: Global, error: &ReadCodeError) -> Result<String, AllocError>
    ensures { IfOk result (λ s. string_bytes s ≡ input_line (file_text error.now)) }
{
    let at = bad_at(error);
    format!(in alloc; "input: bad code file at {at}\n")
}

fn bad_at(error: &ReadCodeError) -> u64
    ensures { result ≡ bad_at error.now }
{
    match error {
        ReadCodeError::Magic { at }
        | ReadCodeError::Truncated { at }
        | ReadCodeError::BadOpcode { at }
        | ReadCodeError::BadTag { at }
        | ReadCodeError::BadText { at }
        | ReadCodeError::ZeroLocation { at }
        | ReadCodeError::TooDeep { at }
        | ReadCodeError::Trailing { at } => *at,
        ReadCodeError::OutOfMemory => 0,
    }
}

/// The line that says that the code in a file has a verification error.
///
/// # Errors
/// There is no memory for the line.
pub fn flaw_line(alloc: Global) -> Result<String, AllocError>
    ensures { IfOk result (λ s. string_bytes s ≡ input_line flaw_text) }
{
    String::from_str(alloc, "input: code does not verify\n")
}
