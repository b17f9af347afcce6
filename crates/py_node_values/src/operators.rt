//! The numbers of operators, comparisons and conversions among the cases of their instructions.
ghost use Rattle.std.specs.Prelude.{◌≡◌};
ghost use Rattle.py_emission_parts.specs.Emitting.{emit};
ghost use Rattle.py_emission_parts.specs.EmissionParts.{emission_of_comparison};
ghost use Rattle.py_emission_parts.specs.TableParts.{binary_case, comparison_operation, conversion_case, counted_operation, unary_case};

use py_bytecode::Instruction;
use py_tree::{CmpOp, ConversionFlag, Operator, UnaryOp};

/// The number of a binary operator's case.
pub fn case_of(op: Operator) -> u32
    ensures { result ≡ binary_case op }
{
    match op {
        Operator::Add => 0,
        Operator::Sub => 1,
        Operator::Mult => 2,
        Operator::MatMult => 3,
        Operator::Div => 4,
        Operator::FloorDiv => 5,
        Operator::Mod => 6,
        Operator::Pow => 7,
        Operator::LShift => 8,
        Operator::RShift => 9,
        Operator::BitOr => 10,
        Operator::BitXor => 11,
        Operator::BitAnd => 12,
    }
}

/// The number of a unary operator's case.
pub fn unary_case_of(op: UnaryOp) -> u32
    ensures { result ≡ unary_case op }
{
    match op {
        UnaryOp::UAdd => 0,
        UnaryOp::USub => 1,
        UnaryOp::Not => 2,
        UnaryOp::Invert => 3,
    }
}

/// The instruction of a comparison, with the number of its case.
pub fn comparison_case(op: CmpOp) -> (Instruction, u32)
    ensures emits { emission_of_comparison op ≡ emit result.0 result.1 }
    ensures does { comparison_operation op ≡ counted_operation result.0 result.1 }
{
    match op {
        CmpOp::Lt => (Instruction::CompareOperation, 0),
        CmpOp::Gt => (Instruction::CompareOperation, 1),
        CmpOp::NotEq => (Instruction::CompareOperation, 2),
        CmpOp::Eq => (Instruction::CompareOperation, 3),
        CmpOp::LtE => (Instruction::CompareOperation, 4),
        CmpOp::GtE => (Instruction::CompareOperation, 5),
        CmpOp::In => (Instruction::TestOperation, 0),
        CmpOp::NotIn => (Instruction::TestOperation, 1),
        CmpOp::Is => (Instruction::TestOperation, 2),
        CmpOp::IsNot => (Instruction::TestOperation, 3),
    }
}

/// The number of a conversion.
pub fn conversion_case_of(conversion: ConversionFlag) -> u32
    ensures { result ≡ conversion_case conversion }
{
    match conversion {
        ConversionFlag::None => 0,
        ConversionFlag::Str => 1,
        ConversionFlag::Ascii => 2,
        ConversionFlag::Repr => 3,
    }
}
