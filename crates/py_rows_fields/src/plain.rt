//! Kinds of rows that name no others.
ghost use Rattle.serde_json.specs.View.{view};
ghost use Rattle.py_rows_fields.specs.Gives.{Gives};
ghost use Rattle.py_rows_fields.specs.Operators.{bool_operator_at, conversion_at, operator_at, unary_operator_at};
ghost use Rattle.py_rows_fields.specs.Fields.{boolean_at, level_at, text_at};
ghost use Rattle.py_rows_fields.specs.declared.table.Plain.TheVariants.{Texts, Comparisons};
ghost use Rattle.py_rows_fields.specs.Plain.{maybe_text, plain_at, readable};

use crate::error::RowsError;
use crate::fields::{boolean, entries, level, word};
use crate::operators::{bool_operator, comparison, conversion, operator, unary_operator};
use crate::table::Plain;
use serde_json::Value;

/// A field that names no row can be read.
///
/// # Errors
/// `WrongRow` where it cannot.
pub(crate) fn check_plain(plain: Plain, value: &Value, row: u32) -> Result<(), RowsError>
    ensures { Gives (λ x. x) result (plain_at row plain (view value.now)) }
{
    match plain {
        Plain::Text => check_text(value, row),
        Plain::MaybeText => check_maybe_text(value, row),
        Plain::Texts => check_texts(value, row),
        Plain::Truth => check_truth(value, row),
        Plain::Level => check_level(value, row),
        Plain::BoolOperator => check_bool_operator(value, row),
        Plain::Operator => check_operator(value, row),
        Plain::UnaryOperator => check_unary_operator(value, row),
        Plain::Comparisons => check_comparisons(value, row),
        Plain::Conversion => check_conversion(value, row),
    }
}

fn check_text(value: &Value, row: u32) -> Result<(), RowsError>
    ensures { Gives (λ x. x) result (readable (text_at row (view value.now))) }
{
    word(value, row)?;
    Ok(())
}

fn check_maybe_text(value: &Value, row: u32) -> Result<(), RowsError>
    ensures { Gives (λ x. x) result (maybe_text row (view value.now)) }
{
    if value.is_null() {
        return Ok(());
    }
    check_text(value, row)
}

fn check_texts(value: &Value, row: u32) -> Result<(), RowsError>
    ensures { Gives (λ x. x) result (plain_at row Texts (view value.now)) }
{
    for entry in entries(value, row)? {
        word(entry, row)?;
    }
    Ok(())
}

fn check_truth(value: &Value, row: u32) -> Result<(), RowsError>
    ensures { Gives (λ x. x) result (readable (boolean_at row (view value.now))) }
{
    boolean(value, row)?;
    Ok(())
}

fn check_level(value: &Value, row: u32) -> Result<(), RowsError>
    ensures { Gives (λ x. x) result (readable (level_at row (view value.now))) }
{
    level(value, row)?;
    Ok(())
}

fn check_bool_operator(value: &Value, row: u32) -> Result<(), RowsError>
    ensures { Gives (λ x. x) result (readable (bool_operator_at row (view value.now))) }
{
    bool_operator(value, row)?;
    Ok(())
}

fn check_operator(value: &Value, row: u32) -> Result<(), RowsError>
    ensures { Gives (λ x. x) result (readable (operator_at row (view value.now))) }
{
    operator(value, row)?;
    Ok(())
}

fn check_unary_operator(value: &Value, row: u32) -> Result<(), RowsError>
    ensures { Gives (λ x. x) result (readable (unary_operator_at row (view value.now))) }
{
    unary_operator(value, row)?;
    Ok(())
}

fn check_comparisons(value: &Value, row: u32) -> Result<(), RowsError>
    ensures { Gives (λ x. x) result (plain_at row Comparisons (view value.now)) }
{
    for entry in entries(value, row)? {
        comparison(entry, row)?;
    }
    Ok(())
}

fn check_conversion(value: &Value, row: u32) -> Result<(), RowsError>
    ensures { Gives (λ x. x) result (readable (conversion_at row (view value.now))) }
{
    conversion(value, row)?;
    Ok(())
}
