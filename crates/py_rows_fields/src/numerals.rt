//! Integers that are spelled in decimal digits.
ghost use Rattle.std.specs.Prelude.{◌≡◌};
ghost use Rattle.std.specs.Char.{is_ascii_digit};
ghost use Rattle.std.specs.List.{list_all};
ghost use Rattle.py_rows_fields.specs.Gives.{Gives};
ghost use Rattle.py_rows_fields.specs.Integers.{integer_at, integer_form, is_digits};

use crate::error::RowsError;

/// The integer that a text spells: decimal digits, after a minus or not.
///
/// # Errors
/// `WrongRow` where the text has not this form, `WideInteger` where the integer is no `i128`.
pub fn integer(text: &str, row: u32) -> Result<i128, RowsError>
    ensures { Gives (λ z. z) result (integer_at row text.now) }
{
    if !has_integer_form(text.as_bytes()) {
        return Err(RowsError::WrongRow { row });
    }
    match text.parse::<i128>() {
        Ok(z) => Ok(z),
        Err(_) => Err(RowsError::WideInteger { row }),
    }
}

fn has_integer_form(bytes: &[u8]) -> bool
    ensures { result ≡ integer_form bytes.now }
{
    match bytes {
        [b'-', digits @ ..] => are_digits(digits),
        _ => are_digits(bytes),
    }
}

fn are_digits(bytes: &[u8]) -> bool
    ensures { result ≡ is_digits bytes.now }
{
    !bytes.is_empty() && all_digits(bytes)
}

fn all_digits(bytes: &[u8]) -> bool
    ensures { result ≡ list_all is_ascii_digit bytes.now }
{
    bytes.iter().all(|b| b.is_ascii_digit())
}
