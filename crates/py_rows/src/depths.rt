//! How deep the rows of a tree nest.
ghost use Rattle.std.specs.Prelude.{◌≡◌, ◌≤◌, length};
ghost use Rattle.py_rows_fields.specs.Gives.{Gives};
ghost use Rattle.py_rows.specs.Rows.{further_levels, is_item, is_with, item_count, whole_depth};

use py_base::NESTING_LIMIT;
use py_rows_fields::{Kind, Part, Row, RowsError, Sort, StmtKind, depth_of};

/// How deep a row nests: one deeper than the deepest row that it names, and its further levels.
///
/// # Errors
/// `TooDeep` where that is 2^10 or more.
pub(crate) fn whole_depth(
    kind: Kind,
    parts: &[Part],
    rows: &[Row],
    number: u32,
) -> Result<u32, RowsError>
    ensures { Gives (λ x. x) result (whole_depth number kind parts.now rows.now) }
{
    let depth = depth_of(parts, rows, number)?;
    let whole = u64::from(depth) + further_levels(kind, parts);
    if whole >= u64::from(NESTING_LIMIT) {
        return Err(RowsError::TooDeep { row: number });
    }
    Ok(whole as u32)
}

/// A `with` of several items stands for so many, one in the other: each further item is a level of its own.
fn further_levels(kind: Kind, parts: &[Part]) -> u64
    ensures value { result ≡ further_levels kind parts.now }
    ensures small { result ≤ length parts.now }
{
    if is_with(kind) {
        item_count(parts).saturating_sub(1)
    } else {
        0
    }
}

fn is_with(kind: Kind) -> bool
    ensures { result ≡ is_with kind }
{
    matches!(kind, Kind::Stmt(StmtKind::With))
}

fn is_item(sort: Sort) -> bool
    ensures { result ≡ is_item sort }
{
    matches!(sort, Sort::WithItem)
}

/// How many of the rows are items of a `with`.
fn item_count(parts: &[Part]) -> u64
    ensures value { result ≡ item_count parts.now }
    ensures small { result ≤ length parts.now }
{
    let mut count = 0;
    for part in parts {
        if is_item(part.sort) {
            count += 1;
        }
    }
    count
}
