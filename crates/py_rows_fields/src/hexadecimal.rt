//! Bytes that are spelled in hexadecimal digits.
ghost use Rattle.std.specs.Prelude.{◌≡◌};
ghost use Rattle.std.specs.Char.{is_ascii_uppercase};
ghost use Rattle.std.specs.List.{list_any};
ghost use Rattle.py_rows_fields.specs.Gives.{Gives};
ghost use Rattle.py_rows_fields.specs.Hexadecimal.{bytes_at};

use crate::error::RowsError;
use hex::FromHexError;
use py_base::List;
use std::alloc::Global;

/// The bytes that a text spells: two lower-case hexadecimal digits each.
///
/// # Errors
/// `WrongRow` where the field has not this form; there may be no memory.
pub fn bytes(alloc: Global, text: &str, row: u32) -> Result<List<u8>, RowsError>
    ensures { Gives (λ b. b) result (bytes_at row text.now) }
{
    if has_upper_case(text.as_bytes()) {
        return Err(RowsError::WrongRow { row });
    }
    match hex::decode(alloc, text) {
        Ok(bytes) => Ok(List::from_vec(bytes)),
        Err(FromHexError::OutOfMemory) => Err(RowsError::OutOfMemory),
        Err(_) => Err(RowsError::WrongRow { row }),
    }
}

fn has_upper_case(text: &[u8]) -> bool
    ensures { result ≡ list_any is_ascii_uppercase text.now }
{
    text.iter().any(|b| b.is_ascii_uppercase())
}
