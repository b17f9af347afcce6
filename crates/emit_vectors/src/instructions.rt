//! What instructions say of their operands, of the stack, and of what follows them.
ghost use Rattle.std.specs.Prelude.{◌≡◌, true};
ghost use Rattle.py_bytecode.specs.Table.{InKind};

use crate::calls::{number, pair};
use crate::failure::Failure;
use py_bytecode::{Instruction, OpArg, OperandKind, UnpackExArgs};
use std::alloc::Global;

/// The instructions.
const INSTRUCTIONS: [Instruction; 92] = [
    Instruction::ImportName,
    Instruction::ImportNameless,
    Instruction::ImportStar,
    Instruction::ImportFrom,
    Instruction::LoadFast,
    Instruction::LoadNameAny,
    Instruction::LoadGlobal,
    Instruction::LoadDeref,
    Instruction::LoadClassDeref,
    Instruction::LoadClosure,
    Instruction::StoreFast,
    Instruction::StoreLocal,
    Instruction::StoreGlobal,
    Instruction::StoreDeref,
    Instruction::DeleteFast,
    Instruction::DeleteLocal,
    Instruction::DeleteGlobal,
    Instruction::DeleteDeref,
    Instruction::Subscript,
    Instruction::StoreSubscript,
    Instruction::DeleteSubscript,
    Instruction::LoadAttr,
    Instruction::StoreAttr,
    Instruction::DeleteAttr,
    Instruction::LoadMethod,
    Instruction::LoadConst,
    Instruction::ReturnConst,
    Instruction::UnaryOperation,
    Instruction::BinaryOperation,
    Instruction::BinaryOperationInplace,
    Instruction::CompareOperation,
    Instruction::TestOperation,
    Instruction::Pop,
    Instruction::Rotate2,
    Instruction::Rotate3,
    Instruction::Duplicate,
    Instruction::Duplicate2,
    Instruction::GetIter,
    Instruction::CallFunctionPositional,
    Instruction::CallFunctionKeyword,
    Instruction::CallFunctionEx,
    Instruction::CallMethodPositional,
    Instruction::CallMethodKeyword,
    Instruction::CallMethodEx,
    Instruction::BuildString,
    Instruction::BuildTuple,
    Instruction::BuildList,
    Instruction::BuildSet,
    Instruction::BuildTupleUnpack,
    Instruction::BuildListUnpack,
    Instruction::BuildSetUnpack,
    Instruction::BuildMapForCall,
    Instruction::BuildMap,
    Instruction::DictUpdate,
    Instruction::BuildSlice,
    Instruction::ListAppend,
    Instruction::SetAdd,
    Instruction::MapAdd,
    Instruction::PrintExpr,
    Instruction::LoadBuildClass,
    Instruction::UnpackSequence,
    Instruction::UnpackEx,
    Instruction::FormatValue,
    Instruction::MakeFunction,
    Instruction::YieldValue,
    Instruction::YieldFrom,
    Instruction::SetupAnnotation,
    Instruction::TypeAlias,
    Instruction::Nop,
    Instruction::SetupLoop,
    Instruction::PopBlock,
    Instruction::PopException,
    Instruction::EnterFinally,
    Instruction::EndFinally,
    Instruction::WithCleanupStart,
    Instruction::WithCleanupFinish,
    Instruction::Raise,
    Instruction::ReturnValue,
    Instruction::ExtendedArg,
    Instruction::JumpIfTrue,
    Instruction::JumpIfFalse,
    Instruction::JumpIfTrueOrPop,
    Instruction::JumpIfFalseOrPop,
    Instruction::ForIter,
    Instruction::Jump,
    Instruction::Break,
    Instruction::Continue,
    Instruction::SetupExcept,
    Instruction::SetupFinally,
    Instruction::SetupWith,
    Instruction::TypeVar,
    Instruction::TypeVarWithBound,
];

/// The instruction of this name.
pub fn instruction(name: &str) -> Result<Instruction, Failure> {
    for instruction in &INSTRUCTIONS {
        if instruction.name() == name {
            return Ok(*instruction);
        }
    }
    Err(Failure::Line)
}

/// Whether an operand is in the range of its kind, where the kind counts or enumerates.
fn is_in_kind(kind: OperandKind, operand: u32) -> bool
    ensures { result ≡ true → InKind kind operand }
{
    match kind {
        OperandKind::Count => operand < 1 << 30,
        OperandKind::Flags => operand < 32,
        OperandKind::Pair => operand < 1 << 16,
        OperandKind::Bit => operand < 2,
        OperandKind::Unary => operand < 4,
        OperandKind::Binary => operand < 13,
        OperandKind::Compare => operand < 6,
        OperandKind::Test => operand < 5,
        OperandKind::RaiseKind => operand < 3,
        OperandKind::Conversion => operand < 4,
        OperandKind::None
        | OperandKind::Const
        | OperandKind::Name
        | OperandKind::Var
        | OperandKind::Cell
        | OperandKind::Label => true,
    }
}

/// What an instruction says with an operand: what kind of operand it has, whether it has a target and leads elsewhere, and by
/// how much it changes the height of the stack where it goes on and where it jumps.
pub fn instruction_text(alloc: Global, rest: &str) -> Result<String, Failure> {
    let (name, arg) = pair(rest)?;
    let instruction = instruction(name)?;
    let arg = OpArg(number(arg)?);
    if !is_in_kind(instruction.operand_kind(), arg.0) {
        return Err(Failure::Line);
    }
    Ok(format!(in alloc;
        "{:?} {} {} {} {}",
        instruction.operand_kind(),
        instruction.has_target(),
        instruction.unconditional_branch(),
        instruction.stack_effect(arg, false),
        instruction.stack_effect(arg, true)
    )?)
}

/// How many units an operand takes, and its bytes from the lowest on.
pub fn operand_text(alloc: Global, rest: &str) -> Result<String, Failure> {
    let arg = OpArg(number(rest)?);
    Ok(format!(in alloc;
        "{} units, {} {} {} {}",
        arg.instr_size(),
        arg.byte_at(0),
        arg.byte_at(1),
        arg.byte_at(2),
        arg.byte_at(3)
    )?)
}

/// The operand of an unpacking with so many targets before and after the star.
pub fn unpacking_text(alloc: Global, rest: &str) -> Result<String, Failure> {
    let (before, after) = pair(rest)?;
    let before = before.parse::<u8>().map_err(|_| Failure::Line)?;
    let after = after.parse::<u8>().map_err(|_| Failure::Line)?;
    Ok(format!(in alloc; "{}", UnpackExArgs { before, after }.arg().0)?)
}
