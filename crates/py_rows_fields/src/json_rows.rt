//! Bytes as JSON, and the array of rows in it.
ghost use Rattle.serde_json.specs.View.{view, items_view};
ghost use Rattle.py_rows_fields.specs.Gives.{Gives};
ghost use Rattle.py_rows_fields.specs.JsonRows.{json_of, rows_in, some_rows};

use crate::error::RowsError;
use serde_json::Value;
use std::alloc::Global;

/// The value that the bytes are as JSON.
///
/// # Errors
/// `NotJson` where they are no JSON; there may be no memory.
pub fn read_json(alloc: Global, bytes: &[u8]) -> Result<Value, RowsError>
    ensures { Gives view result (json_of bytes.now) }
{
    match Value::from_slice(alloc, bytes) {
        Ok(value) => Ok(value),
        Err(e) => {
            if e.is_memory() {
                Err(RowsError::OutOfMemory)
            } else {
                Err(RowsError::NotJson)
            }
        }
    }
}

/// The rows, which are the entries of an array that is not empty.
///
/// # Errors
/// `NotRows` where the value is no array, or an empty one.
pub fn rows_of(value: Value) -> Result<Vec<Value>, RowsError>
    ensures { Gives (λ r. items_view r.items) result (rows_in (view value)) }
{
    match value {
        Value::Array(rows) => some_rows(rows),
        _other => Err(RowsError::NotRows),
    }
}

fn some_rows(rows: Vec<Value>) -> Result<Vec<Value>, RowsError>
    ensures { Gives (λ r. items_view r.items) result (some_rows (items_view rows.items)) }
{
    if rows.is_empty() {
        return Err(RowsError::NotRows);
    }
    Ok(rows)
}
