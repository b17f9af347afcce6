//! The words for operators.
ghost use Rattle.std.specs.Prelude.{◌≡◌};
ghost use Rattle.serde_json.specs.View.{view};
ghost use Rattle.py_rows_fields.specs.Gives.{Gives};
ghost use Rattle.py_rows_fields.specs.Operators.{bool_operator_at, bool_operator_of, comparisons_at, comparison_at, comparison_of, conversion_at, conversion_of, operator_at, operator_of, unary_operator_at, unary_operator_of};

use crate::error::RowsError;
use crate::fields::entries;
use crate::words::find_word;
use py_base::{BoolOp, CmpOp, ConversionFlag, List, Operator, UnaryOp};
use serde_json::Value;
use std::alloc::Global;

/// The operator of a `BoolOp`.
///
/// # Errors
/// `WrongRow` where the field has not this form; there may be no memory.
pub fn bool_operator(value: &Value, row: u32) -> Result<BoolOp, RowsError>
    ensures { Gives (λ x. x) result (bool_operator_at row (view value.now)) }
{
    match value.as_str().and_then(bool_operator_of) {
        Some(bool_operator) => Ok(bool_operator),
        None => Err(RowsError::WrongRow { row }),
    }
}

fn bool_operator_of(word: &str) -> Option<BoolOp>
    ensures { result ≡ bool_operator_of word.now }
{
    let bytes = word.as_bytes();
    find_word! { bytes;
        b"And" => BoolOp::And,
        b"Or" => BoolOp::Or,
    }
}

/// The operator of a `BinOp`.
///
/// # Errors
/// `WrongRow` where the field has not this form; there may be no memory.
pub fn operator(value: &Value, row: u32) -> Result<Operator, RowsError>
    ensures { Gives (λ x. x) result (operator_at row (view value.now)) }
{
    match value.as_str().and_then(operator_of) {
        Some(operator) => Ok(operator),
        None => Err(RowsError::WrongRow { row }),
    }
}

fn operator_of(word: &str) -> Option<Operator>
    ensures { result ≡ operator_of word.now }
{
    let bytes = word.as_bytes();
    find_word! { bytes;
        b"Add" => Operator::Add,
        b"Sub" => Operator::Sub,
        b"Mult" => Operator::Mult,
        b"MatMult" => Operator::MatMult,
        b"Div" => Operator::Div,
        b"FloorDiv" => Operator::FloorDiv,
        b"Mod" => Operator::Mod,
        b"Pow" => Operator::Pow,
        b"LShift" => Operator::LShift,
        b"RShift" => Operator::RShift,
        b"BitOr" => Operator::BitOr,
        b"BitXor" => Operator::BitXor,
        b"BitAnd" => Operator::BitAnd,
    }
}

/// The operator of a `UnaryOp`.
///
/// # Errors
/// `WrongRow` where the field has not this form; there may be no memory.
pub fn unary_operator(value: &Value, row: u32) -> Result<UnaryOp, RowsError>
    ensures { Gives (λ x. x) result (unary_operator_at row (view value.now)) }
{
    match value.as_str().and_then(unary_operator_of) {
        Some(unary_operator) => Ok(unary_operator),
        None => Err(RowsError::WrongRow { row }),
    }
}

fn unary_operator_of(word: &str) -> Option<UnaryOp>
    ensures { result ≡ unary_operator_of word.now }
{
    let bytes = word.as_bytes();
    find_word! { bytes;
        b"Invert" => UnaryOp::Invert,
        b"Not" => UnaryOp::Not,
        b"UAdd" => UnaryOp::UAdd,
        b"USub" => UnaryOp::USub,
    }
}

/// An operator of a `Compare`.
pub(crate) fn comparison(value: &Value, row: u32) -> Result<CmpOp, RowsError>
    ensures { Gives (λ x. x) result (comparison_at row (view value.now)) }
{
    match value.as_str().and_then(comparison_of) {
        Some(comparison) => Ok(comparison),
        None => Err(RowsError::WrongRow { row }),
    }
}

fn comparison_of(word: &str) -> Option<CmpOp>
    ensures { result ≡ comparison_of word.now }
{
    let bytes = word.as_bytes();
    find_word! { bytes;
        b"Eq" => CmpOp::Eq,
        b"NotEq" => CmpOp::NotEq,
        b"Lt" => CmpOp::Lt,
        b"LtE" => CmpOp::LtE,
        b"Gt" => CmpOp::Gt,
        b"GtE" => CmpOp::GtE,
        b"Is" => CmpOp::Is,
        b"IsNot" => CmpOp::IsNot,
        b"In" => CmpOp::In,
        b"NotIn" => CmpOp::NotIn,
    }
}

/// The operators of a `Compare`.
///
/// # Errors
/// `WrongRow` where the field has not this form; there may be no memory.
pub fn comparisons(alloc: Global, value: &Value, row: u32) -> Result<List<CmpOp>, RowsError>
    ensures { Gives (λ x. x) result (comparisons_at row (view value.now)) }
{
    let mut found = Vec::new(alloc);
    for entry in entries(value, row)? {
        found.push(comparison(entry, row)?)?;
    }
    Ok(List::from_vec(found))
}

/// The conversion of a `FormattedValue`.
///
/// # Errors
/// `WrongRow` where the field has not this form; there may be no memory.
pub fn conversion(value: &Value, row: u32) -> Result<ConversionFlag, RowsError>
    ensures { Gives (λ x. x) result (conversion_at row (view value.now)) }
{
    match value.as_str().and_then(conversion_of) {
        Some(conversion) => Ok(conversion),
        None => Err(RowsError::WrongRow { row }),
    }
}

fn conversion_of(word: &str) -> Option<ConversionFlag>
    ensures { result ≡ conversion_of word.now }
{
    let bytes = word.as_bytes();
    find_word! { bytes;
        b"None" => ConversionFlag::None,
        b"Str" => ConversionFlag::Str,
        b"Ascii" => ConversionFlag::Ascii,
        b"Repr" => ConversionFlag::Repr,
    }
}
