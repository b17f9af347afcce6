//! Which code points a quoted text writes as they are.
ghost use Rattle.std.specs.Prelude.{◌≡◌, ◌++◌, string_bytes, OnOk};
ghost use Rattle.std.specs.Fmt.{signed_decimal};
ghost use Rattle.py_quote.specs.Plain.{bool_text};

use std::alloc::AllocError;
use std::fmt::Write;

/// Appends `True` or `False`.
///
/// # Errors
/// There is no memory for the text.
pub fn push_bool(out: &mut String, value: bool) -> Result<(), AllocError>
    ensures { OnOk result (string_bytes out.new ≡ string_bytes out.old ++ bool_text value) }
{
    if value {
        out.push_str("True")
    } else {
        out.push_str("False")
    }
}

/// Appends the number in decimal digits, after a `-` where it is below zero.
///
/// # Errors
/// There is no memory for the text.
pub fn push_decimal(out: &mut String, value: i128) -> Result<(), AllocError>
    ensures { OnOk result (string_bytes out.new ≡ string_bytes out.old ++ signed_decimal value) }
{
    write!(out, "{value}")
}
