//! What is asked once all rows are read.
ghost use Rattle.std.specs.Prelude.{◌≡◌, Some, position};
ghost use Rattle.py_tree.specs.View.{mod_tree};
ghost use Rattle.py_rows_fields.specs.Gives.{Fails, Gives};
ghost use Rattle.py_rows_slots.specs.Nodes.{is_left, nodes_view};
ghost use Rattle.py_rows.specs.Rows.{ends_in_program, first_left, is_program, none_left, whole};

use py_rows_fields::{Row, RowsError, Sort};
use py_rows_slots::Nodes;
use py_tree::Mod;

/// The tree of the last row, where that is a program and each other row is named.
pub(crate) fn take_program(nodes: &mut Nodes) -> Result<Mod, RowsError>
    ensures { Gives mod_tree result (whole (nodes_view nodes.old)) }
{
    if !ends_in_program(nodes.rows.as_slice()) {
        return Err(RowsError::NoMod);
    }
    check_named(nodes)?;
    match nodes.program.take() {
        Some(tree) => Ok(tree),
        None => Err(RowsError::NoMod),
    }
}

fn ends_in_program(rows: &[Row]) -> bool
    ensures { result ≡ ends_in_program rows.now }
{
    match rows.last() {
        Some(row) => is_program(row.sort),
        None => false,
    }
}

fn is_program(sort: Sort) -> bool
    ensures { result ≡ is_program sort }
{
    matches!(sort, Sort::Mod)
}

/// Each row but the last is named.
///
/// # Errors
/// `NotNamed` with the lowest that is not.
fn check_named(nodes: &Nodes) -> Result<(), RowsError>
    ensures { Gives (λ x. x) result (none_left (first_left (nodes_view nodes.now))) }
{
    let rows = nodes.rows.as_slice();
    if rows.is_empty() {
        return Ok(());
    }
    match lowest_left(nodes, &rows[..rows.len() - 1]) {
        Some(row) => Err(not_named(row)),
        None => Ok(()),
    }
}

/// That no row names this one. There are fewer than 2^32 rows, so its number is one.
fn not_named(row: usize) -> RowsError
    ensures { Fails result (none_left (Some row)) }
{
    match u32::try_from(row) {
        Ok(row) => RowsError::NotNamed { row },
        Err(_) => RowsError::OutOfMemory,
    }
}

/// The lowest of these rows that no row has named.
fn lowest_left(nodes: &Nodes, rows: &[Row]) -> Option<usize>
    ensures { result ≡ position (λ r. is_left r.sort r.index (nodes_view nodes.now)) rows.now }
{
    rows.iter().position(|row| nodes.is_left(row))
}
