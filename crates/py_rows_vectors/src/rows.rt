use crate::fields::{Field, Items, Node};
use crate::parts::{node_row, program_row};
use crate::row::Row;
use py_tree::Mod;
use serde_json::Value;
use std::alloc::{AllocError, Global};

/// Writes an entry of an array, after a comma where it is not the first.
fn push_entry(text: &mut String, entry: &str) -> Result<(), AllocError> {
    if !text.as_str().ends_with('[') {
        text.push_str(",")?;
    }
    text.push_str(entry)
}

fn quoted(alloc: Global, text: &str) -> Result<String, AllocError> {
    Value::try_from_str(alloc, text)?.to_string(alloc)
}

fn quoted_digits(alloc: Global, bytes: &[u8]) -> Result<String, AllocError> {
    let digits = hex::encode(alloc, bytes)?;
    format!(in alloc; "\"{digits}\"")
}

/// Goes on with an array of the row: its next item is the next field, and after that what is left of it.
fn go_on<'a>(row: &mut Row<'a>, items: Items<'a>, i: usize) -> Result<(), AllocError> {
    match items.get(i) {
        Some(item) => {
            row.fields.push(Field::Rest(items, i.saturating_add(1)))?;
            row.fields.push(item)?;
            Ok(())
        }
        None => row.text.push_str("]"),
    }
}

/// Writes a field of the row. A node is given back, since the number of its row will stand here.
fn write_field<'a>(
    alloc: Global,
    row: &mut Row<'a>,
    field: Field<'a>,
) -> Result<Option<Node<'a>>, AllocError> {
    let entry = match field {
        Field::Null => String::from_str(alloc, "null")?,
        Field::Flag(flag) => format!(in alloc; "{flag}")?,
        Field::Number(number) => format!(in alloc; "{number}")?,
        Field::Integer(number) => format!(in alloc; "\"{number}\"")?,
        Field::Bytes(bytes) => quoted_digits(alloc, bytes)?,
        Field::Text(text) => quoted(alloc, text)?,
        Field::Node(node) => return Ok(Some(node)),
        Field::Array(items) => {
            push_entry(&mut row.text, "[")?;
            go_on(row, items, 0)?;
            return Ok(None);
        }
        Field::Rest(items, i) => {
            go_on(row, items, i)?;
            return Ok(None);
        }
    };
    push_entry(&mut row.text, entry.as_str())?;
    Ok(None)
}

/// Ends a row. Its number stands in the row that is open around it.
fn close(
    alloc: Global,
    row: Row<'_>,
    open: &mut Vec<Row<'_>>,
    rows: &mut Vec<String>,
) -> Result<(), AllocError> {
    let number = format!(in alloc; "{}", rows.len())?;
    let Row { mut text, fields } = row;
    drop(fields);
    text.push_str("]")?;
    rows.push(text)?;
    match open.last_mut() {
        Some(outer) => push_entry(&mut outer.text, number.as_str()),
        None => Ok(()),
    }
}

/// Goes on with the row that was opened last.
fn advance<'a>(
    alloc: Global,
    mut row: Row<'a>,
    open: &mut Vec<Row<'a>>,
    rows: &mut Vec<String>,
) -> Result<(), AllocError> {
    let Some(field) = row.fields.pop() else {
        return close(alloc, row, open, rows);
    };
    let within = write_field(alloc, &mut row, field)?;
    open.push(row)?;
    if let Some(node) = within {
        open.push(node_row(alloc, node)?)?;
    }
    Ok(())
}

/// The rows of the tree, in the order in which it is gone through: those of the nodes in a row, in the order of its
/// fields, and then that row.
pub fn rows_of(alloc: Global, tree: &Mod) -> Result<Vec<String>, AllocError> {
    let mut rows = Vec::new(alloc);
    let mut open = Vec::new(alloc);
    open.push(program_row(alloc, tree)?)?;
    for _ in 0..u64::MAX {
        let Some(row) = open.pop() else {
            break;
        };
        advance(alloc, row, &mut open, &mut rows)?;
    }
    Ok(rows)
}
