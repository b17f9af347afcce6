//! Blocks of a loop that ends at once.

use bitflags::Flags;
use py_base::{List, OneIndexed, SourceLocation, Text};
use py_bytecode::{CodeFlags, ConstantData, Instruction, OpArg};
use py_ir::{Block, BlockIdx, Blocks, CodeInfo, ConstantSet, InstructionInfo, NameSet};
use std::alloc::{AllocError, Global};

/// The blocks of a loop that is left by its first test, with the constant None.
pub fn loop_of_blocks(alloc: Global) -> Result<CodeInfo, AllocError> {
    let mut blocks = Blocks::new(alloc);
    let head = [
        info(Instruction::SetupLoop, BlockIdx::NULL),
        info(Instruction::LoadConst, BlockIdx::NULL),
        info(Instruction::JumpIfFalse, BlockIdx(1)),
        info(Instruction::Break, BlockIdx(2)),
    ];
    let last = [
        info(Instruction::PopBlock, BlockIdx::NULL),
        info(Instruction::ReturnConst, BlockIdx::NULL),
    ];
    let out = [info(Instruction::ReturnConst, BlockIdx::NULL)];
    push(&mut blocks, block(alloc, &head, BlockIdx(1))?)?;
    push(&mut blocks, block(alloc, &last, BlockIdx(2))?)?;
    push(&mut blocks, block(alloc, &out, BlockIdx::NULL)?)?;
    code_info(alloc, blocks, only_none(alloc)?)
}

fn push(blocks: &mut Blocks, block: Block) -> Result<(), AllocError> {
    match blocks.push(block) {
        Ok(_) => Ok(()),
        Err(_) => Err(AllocError),
    }
}

fn only_none(alloc: Global) -> Result<ConstantSet, AllocError> {
    let mut constants = ConstantSet::new(alloc);
    match constants.insert_full(ConstantData::None) {
        Ok(_) => Ok(constants),
        Err(_) => Err(AllocError),
    }
}

fn info(instr: Instruction, target: BlockIdx) -> InstructionInfo {
    InstructionInfo {
        instr,
        arg: OpArg(0),
        target,
        location: SourceLocation::default(),
    }
}

fn block(alloc: Global, items: &[InstructionInfo], next: BlockIdx) -> Result<Block, AllocError> {
    Ok(Block {
        instructions: List::from_vec(Vec::from_slice(alloc, items)?),
        next,
    })
}

fn text(alloc: Global, text: &str) -> Result<Text, AllocError> {
    Ok(Text::from_string(String::from_str(alloc, text)?))
}

fn code_info(
    alloc: Global,
    blocks: Blocks,
    constants: ConstantSet,
) -> Result<CodeInfo, AllocError> {
    Ok(CodeInfo {
        flags: CodeFlags::from_bits_retain(0),
        posonlyarg_count: 0,
        arg_count: 0,
        kwonlyarg_count: 0,
        source_path: text(alloc, "m.py")?,
        first_line_number: OneIndexed::MIN,
        obj_name: text(alloc, "f")?,
        blocks,
        current_block: BlockIdx(0),
        constants,
        name_cache: NameSet::new(alloc),
        varname_cache: NameSet::new(alloc),
        cellvar_cache: NameSet::new(alloc),
        freevar_cache: NameSet::new(alloc),
    })
}
