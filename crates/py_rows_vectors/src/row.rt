use crate::fields::Field;
use py_tree::SourceLocation;
use std::alloc::{AllocError, Global};
use std::fmt::Write;

/// A row that is being written: its text so far, and the fields that are left, the last first.
#[derive(Drop)]
pub struct Row<'a> {
    pub text: String,
    pub fields: Vec<Field<'a>>,
}

/// The row of a kind without a place.
pub fn unplaced<'a>(
    alloc: Global,
    word: &str,
    fields: &[Field<'a>],
) -> Result<Row<'a>, AllocError> {
    let text = format!(in alloc; "[\"{word}\"")?;
    let mut left = Vec::new(alloc);
    left.extend_from_slice(fields)?;
    left.reverse();
    Ok(Row { text, fields: left })
}

/// Makes rows of kinds that have a place.
#[derive(Clone, Copy)]
pub struct Placed {
    pub alloc: Global,
    pub at: SourceLocation,
}

impl Placed {
    /// The row of a kind with these fields after its place.
    pub fn row<'a>(self, word: &str, fields: &[Field<'a>]) -> Result<Row<'a>, AllocError> {
        let Placed { alloc, at } = self;
        let mut row = unplaced(alloc, word, fields)?;
        write!(row.text, ",{},{}", at.row.get(), at.column.get())?;
        Ok(row)
    }
}
