//! What is known of a row before its node is made: its kind, and how deep it nests.
ghost use Rattle.std.specs.Prelude.{◌≡◌};
ghost use Rattle.py_rows_fields.specs.Gives.{Gives};
ghost use Rattle.py_rows_fields.specs.Outline.{all_earlier, all_fit, checked_rows, deepest, depth_at, depth_of, fits};

use crate::error::RowsError;
use crate::kinds::Sort;
use crate::parts::Part;
use py_base::NESTING_LIMIT;

/// A row that was read: what it may be named as, its nesting, and which of the nodes of its sort it made,
/// counted from 0.
#[derive(Clone, Copy, Debug)]
pub struct Row {
    pub sort: Sort,
    pub depth: u32,
    pub index: usize,
}

/// The rows that row `row` names are earlier ones, and of the sorts that its fields take.
///
/// # Errors
/// `LaterRow`, or else `WrongKind`.
pub fn check_parts(parts: &[Part], rows: &[Row], row: u32) -> Result<(), RowsError>
    ensures { Gives (λ x. x) result (checked_rows row parts.now rows.now) }
{
    if !all_earlier(u64::from(row), parts) {
        return Err(RowsError::LaterRow { row });
    }
    if !all_fit(rows, parts) {
        return Err(RowsError::WrongKind { row });
    }
    Ok(())
}

/// The nesting of row `row`, one more than that of the deepest row that it names.
///
/// # Errors
/// `TooDeep` where that is 2^10 or more.
pub fn depth_of(parts: &[Part], rows: &[Row], row: u32) -> Result<u32, RowsError>
    ensures { Gives (λ x. x) result (depth_of row parts.now rows.now) }
{
    let depth = u64::from(deepest(rows, parts)) + 1;
    if depth >= u64::from(NESTING_LIMIT) {
        return Err(RowsError::TooDeep { row });
    }
    Ok(depth as u32)
}

/// Whether each row that is named stands before row `row`.
fn all_earlier(row: u64, parts: &[Part]) -> bool
    ensures { result ≡ all_earlier row parts.now }
{
    parts.iter().all(|part| part.number < row)
}

/// Whether each row that is named is what it has to be.
fn all_fit(rows: &[Row], parts: &[Part]) -> bool
    ensures { result ≡ all_fit rows.now parts.now }
{
    parts.iter().all(|part| fits(rows, part))
}

fn fits(rows: &[Row], part: &Part) -> bool
    ensures { result ≡ fits rows.now part.now }
{
    match rows.get(part.number as usize) {
        Some(found) => found.sort.number() == part.sort.number(),
        None => false,
    }
}

/// The nesting of the deepest row that is named, and 0 where none is.
fn deepest(rows: &[Row], parts: &[Part]) -> u32
    ensures { result ≡ deepest rows.now parts.now }
{
    let mut deepest = 0;
    for part in parts {
        deepest = depth_at(rows, part.number).max(deepest);
    }
    deepest
}

fn depth_at(rows: &[Row], number: u64) -> u32
    ensures { result ≡ depth_at rows.now number }
{
    match rows.get(number as usize) {
        Some(found) => found.depth,
        None => 0,
    }
}
