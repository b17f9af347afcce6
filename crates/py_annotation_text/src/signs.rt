//! How operators are written, and how closely they bind.
ghost use Rattle.std.specs.Prelude.{◌≡◌, ◌+◌};
ghost use Rattle.py_annotation_text.specs.Signs.{binary_level, binary_sign, bool_level, bool_word, comparison_sign, left_level, right_level, unary_level, unary_sign};

use py_tree::{BoolOp, CmpOp, Operator, UnaryOp};

pub(crate) fn bool_word(op: BoolOp) -> &'static str
    ensures { result.now ≡ bool_word op }
{
    match op {
        BoolOp::And => " and ",
        BoolOp::Or => " or ",
    }
}

pub(crate) fn bool_level(op: BoolOp) -> u8
    ensures { result ≡ bool_level op }
{
    match op {
        BoolOp::Or => 3,
        BoolOp::And => 4,
    }
}

/// The level that the values of a boolean operation are to have.
pub(crate) fn above_bool_level(op: BoolOp) -> u8
    ensures { result ≡ bool_level op + 1 }
{
    match op {
        BoolOp::Or => 4,
        BoolOp::And => 5,
    }
}

pub(crate) fn unary_sign(op: UnaryOp) -> &'static str
    ensures { result.now ≡ unary_sign op }
{
    match op {
        UnaryOp::Not => "not ",
        UnaryOp::UAdd => "+",
        UnaryOp::USub => "-",
        UnaryOp::Invert => "~",
    }
}

pub(crate) fn unary_level(op: UnaryOp) -> u8
    ensures { result ≡ unary_level op }
{
    match op {
        UnaryOp::Not => 5,
        UnaryOp::UAdd | UnaryOp::USub | UnaryOp::Invert => 13,
    }
}

pub(crate) fn comparison_sign(op: CmpOp) -> &'static str
    ensures { result.now ≡ comparison_sign op }
{
    match op {
        CmpOp::Eq => " == ",
        CmpOp::NotEq => " != ",
        CmpOp::Lt => " < ",
        CmpOp::LtE => " <= ",
        CmpOp::Gt => " > ",
        CmpOp::GtE => " >= ",
        CmpOp::Is => " is ",
        CmpOp::IsNot => " is not ",
        CmpOp::In => " in ",
        CmpOp::NotIn => " not in ",
    }
}

pub(crate) fn binary_sign(op: Operator) -> &'static str
    ensures { result.now ≡ binary_sign op }
{
    match op {
        Operator::Add => " + ",
        Operator::Sub => " - ",
        Operator::Mult => " * ",
        Operator::MatMult => " @ ",
        Operator::Div => " / ",
        Operator::FloorDiv => " // ",
        Operator::Mod => " % ",
        Operator::Pow => " ** ",
        Operator::LShift => " << ",
        Operator::RShift => " >> ",
        Operator::BitOr => " | ",
        Operator::BitXor => " ^ ",
        Operator::BitAnd => " & ",
    }
}

pub(crate) fn binary_level(op: Operator) -> u8
    ensures { result ≡ binary_level op }
{
    match op {
        Operator::BitOr => 7,
        Operator::BitXor => 8,
        Operator::BitAnd => 9,
        Operator::LShift | Operator::RShift => 10,
        Operator::Add | Operator::Sub => 11,
        Operator::Mult | Operator::MatMult | Operator::Div | Operator::FloorDiv | Operator::Mod =>
            12,
        Operator::Pow => 14,
    }
}

/// The level that a left operand is to have.
pub(crate) fn left_level(op: Operator) -> u8
    ensures { result ≡ left_level op }
{
    match op {
        Operator::Pow => 15,
        _ => binary_level(op),
    }
}

/// The level that a right operand is to have.
pub(crate) fn right_level(op: Operator) -> u8
    ensures { result ≡ right_level op }
{
    match op {
        Operator::Pow => 13,
        Operator::BitOr => 8,
        Operator::BitXor => 9,
        Operator::BitAnd => 10,
        Operator::LShift | Operator::RShift => 11,
        Operator::Add | Operator::Sub => 12,
        Operator::Mult | Operator::MatMult | Operator::Div | Operator::FloorDiv | Operator::Mod =>
            13,
    }
}
