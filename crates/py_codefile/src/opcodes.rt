//! The numbers of instructions.
ghost use Rattle.std.specs.Prelude.{◌≡◌, slice_get};
ghost use Rattle.py_codefile.specs.Opcodes.{instructions, opcode};

use py_bytecode::Instruction;

/// The instruction of each number.
const INSTRUCTIONS: [Instruction; 92] = [
    Instruction::ImportName,
    Instruction::ImportNameless,
    Instruction::ImportStar,
    Instruction::ImportFrom,
    Instruction::LoadFast,
    Instruction::LoadNameAny,
    Instruction::LoadGlobal,
    Instruction::LoadDeref,
    Instruction::LoadClassDeref,
    Instruction::LoadClosure,
    Instruction::StoreFast,
    Instruction::StoreLocal,
    Instruction::StoreGlobal,
    Instruction::StoreDeref,
    Instruction::DeleteFast,
    Instruction::DeleteLocal,
    Instruction::DeleteGlobal,
    Instruction::DeleteDeref,
    Instruction::Subscript,
    Instruction::StoreSubscript,
    Instruction::DeleteSubscript,
    Instruction::LoadAttr,
    Instruction::StoreAttr,
    Instruction::DeleteAttr,
    Instruction::LoadMethod,
    Instruction::LoadConst,
    Instruction::ReturnConst,
    Instruction::UnaryOperation,
    Instruction::BinaryOperation,
    Instruction::BinaryOperationInplace,
    Instruction::CompareOperation,
    Instruction::TestOperation,
    Instruction::Pop,
    Instruction::Rotate2,
    Instruction::Rotate3,
    Instruction::Duplicate,
    Instruction::Duplicate2,
    Instruction::GetIter,
    Instruction::CallFunctionPositional,
    Instruction::CallFunctionKeyword,
    Instruction::CallFunctionEx,
    Instruction::CallMethodPositional,
    Instruction::CallMethodKeyword,
    Instruction::CallMethodEx,
    Instruction::BuildString,
    Instruction::BuildTuple,
    Instruction::BuildList,
    Instruction::BuildSet,
    Instruction::BuildTupleUnpack,
    Instruction::BuildListUnpack,
    Instruction::BuildSetUnpack,
    Instruction::BuildMapForCall,
    Instruction::BuildMap,
    Instruction::DictUpdate,
    Instruction::BuildSlice,
    Instruction::ListAppend,
    Instruction::SetAdd,
    Instruction::MapAdd,
    Instruction::PrintExpr,
    Instruction::LoadBuildClass,
    Instruction::UnpackSequence,
    Instruction::UnpackEx,
    Instruction::FormatValue,
    Instruction::MakeFunction,
    Instruction::YieldValue,
    Instruction::YieldFrom,
    Instruction::SetupAnnotation,
    Instruction::TypeAlias,
    Instruction::Nop,
    Instruction::SetupLoop,
    Instruction::PopBlock,
    Instruction::PopException,
    Instruction::EnterFinally,
    Instruction::EndFinally,
    Instruction::WithCleanupStart,
    Instruction::WithCleanupFinish,
    Instruction::Raise,
    Instruction::ReturnValue,
    Instruction::ExtendedArg,
    Instruction::JumpIfTrue,
    Instruction::JumpIfFalse,
    Instruction::JumpIfTrueOrPop,
    Instruction::JumpIfFalseOrPop,
    Instruction::ForIter,
    Instruction::Jump,
    Instruction::Break,
    Instruction::Continue,
    Instruction::SetupExcept,
    Instruction::SetupFinally,
    Instruction::SetupWith,
    Instruction::TypeVar,
    Instruction::TypeVarWithBound,
];

/// The number of an instruction, its place in the table of instructions.
pub fn opcode_of(instruction: Instruction) -> u8
    ensures { result ≡ opcode instruction }
{
    instruction as u8
}

/// The instruction of a number. None where there is none.
pub fn instruction_of(number: u8) -> Option<Instruction>
    ensures { result ≡ slice_get instructions number }
{
    entry(&INSTRUCTIONS, number)
}

/// The entry of a table at a place.
fn entry(table: &[Instruction], place: u8) -> Option<Instruction>
    ensures { result ≡ slice_get table.now place }
{
    table.get(place as usize).copied()
}
