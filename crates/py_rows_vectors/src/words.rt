use crate::fields::Field;
use py_tree::{BoolOp, CmpOp, ConversionFlag, Operator, UnaryOp};

pub fn bool_op(op: BoolOp) -> Field<'static> {
    Field::Text(match op {
        BoolOp::And => "And",
        BoolOp::Or => "Or",
    })
}

pub fn unary_op(op: UnaryOp) -> Field<'static> {
    Field::Text(match op {
        UnaryOp::Invert => "Invert",
        UnaryOp::Not => "Not",
        UnaryOp::UAdd => "UAdd",
        UnaryOp::USub => "USub",
    })
}

pub fn operator(op: Operator) -> Field<'static> {
    Field::Text(match op {
        Operator::Add => "Add",
        Operator::Sub => "Sub",
        Operator::Mult => "Mult",
        Operator::MatMult => "MatMult",
        Operator::Div => "Div",
        Operator::FloorDiv => "FloorDiv",
        Operator::Mod => "Mod",
        Operator::Pow => "Pow",
        Operator::LShift => "LShift",
        Operator::RShift => "RShift",
        Operator::BitOr => "BitOr",
        Operator::BitXor => "BitXor",
        Operator::BitAnd => "BitAnd",
    })
}

pub fn cmp_op(op: CmpOp) -> Field<'static> {
    Field::Text(match op {
        CmpOp::Eq => "Eq",
        CmpOp::NotEq => "NotEq",
        CmpOp::Lt => "Lt",
        CmpOp::LtE => "LtE",
        CmpOp::Gt => "Gt",
        CmpOp::GtE => "GtE",
        CmpOp::Is => "Is",
        CmpOp::IsNot => "IsNot",
        CmpOp::In => "In",
        CmpOp::NotIn => "NotIn",
    })
}

pub fn conversion(flag: ConversionFlag) -> Field<'static> {
    Field::Text(match flag {
        ConversionFlag::None => "None",
        ConversionFlag::Str => "Str",
        ConversionFlag::Ascii => "Ascii",
        ConversionFlag::Repr => "Repr",
    })
}
