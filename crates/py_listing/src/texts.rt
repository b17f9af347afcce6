//! Texts and numbers, put after a text.
ghost use Rattle.std.specs.Prelude.{◌≡◌, ◌<◌, [], ◌∷◌, ◌++◌, string_bytes, OnOk};

use itoa::{Buffer, Integer};
use std::alloc::AllocError;

/// Appends the text as it is.
///
/// # Errors
/// There is no memory for it.
pub fn push_text(out: &mut String, text: &str) -> Result<(), AllocError>
    ensures { OnOk result (string_bytes out.new ≡ string_bytes out.old ++ text.now) }
{
    out.push_str(text)
}

/// Appends an ASCII character, which is a byte by itself.
///
/// # Errors
/// There is no memory for it.
pub fn push_mark(out: &mut String, mark: char) -> Result<(), AllocError>
    requires { mark < 128 }
    ensures { OnOk result (string_bytes out.new ≡ string_bytes out.old ++ mark ∷ []) }
{
    out.push(mark)
}

/// Appends a number in decimal digits.
///
/// # Errors
/// There is no memory for it.
pub fn push_number<I: Integer>(out: &mut String, number: I) -> Result<(), AllocError>
    ensures { OnOk result (string_bytes out.new ≡ string_bytes out.old ++ I.text number) }
{
    let mut buffer = Buffer::new();
    out.push_str(buffer.format(number))
}
