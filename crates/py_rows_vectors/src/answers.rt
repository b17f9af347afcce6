use crate::rows::rows_of;
use py_rows::read_rows;
use std::alloc::{AllocError, Global};

/// The rows of the tree whose rows these bytes are, or why they are not the rows of a tree.
pub fn answer(alloc: Global, bytes: &[u8]) -> Result<String, AllocError> {
    if bytes.len() >= 1 << 26 {
        return String::from_str(alloc, "too long");
    }
    let tree = match read_rows(alloc, bytes) {
        Ok(tree) => tree,
        Err(error) => return format!(in alloc; "{error}"),
    };
    let rows = rows_of(alloc, &tree);
    tree.discard();
    let rows = rows?;
    line_of(alloc, rows.as_slice())
}

/// The rows on one line, as a list.
fn line_of(alloc: Global, rows: &[String]) -> Result<String, AllocError> {
    let mut line = String::from_str(alloc, "[")?;
    for (i, row) in rows.iter().enumerate() {
        if i > 0 {
            line.push_str(",")?;
        }
        line.push_str(row.as_str())?;
    }
    line.push_str("]")?;
    Ok(line)
}
