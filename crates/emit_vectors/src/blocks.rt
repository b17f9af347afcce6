//! Blocks, and the code or the refusal that is made of them.

use crate::calls::number;
use crate::emitters::text;
use crate::failure::Failure;
use crate::instructions::instruction;
use crate::values::enter;
use bitflags::Flags;
use py_base::{List, OneIndexed, SourceLocation};
use py_bytecode::{CodeFlags, CodeObject, ConstantData, Instruction, OpArg};
use py_ir::{Block, BlockIdx, Blocks, CodeInfo, ConstantSet, InstructionInfo, NameSet};
use std::alloc::{AllocError, Global};

fn plain(instr: Instruction, arg: u32) -> InstructionInfo {
    InstructionInfo {
        instr,
        arg: OpArg(arg),
        target: BlockIdx::NULL,
        location: SourceLocation::default(),
    }
}

/// One item of a block: an instruction with its operand, `>` and its target, and `*` and how often it stands there.
/// `=` and a number are the block's next, and `-` stands for nothing.
#[derive(Clone, Copy)]
struct Item {
    info: InstructionInfo,
    times: u32,
    next: Option<u32>,
}

fn parse_item(text: &str) -> Result<Item, Failure> {
    let mut item = Item {
        info: plain(Instruction::Nop, 0),
        times: 1,
        next: None,
    };
    for word in text.split(" ") {
        if let Some(target) = word.strip_prefix(">") {
            item.info.target = BlockIdx(number(target)?);
        } else if let Some(times) = word.strip_prefix("*") {
            item.times = number(times)?;
        } else if let Some(next) = word.strip_prefix("=") {
            item.next = Some(number(next)?);
            item.times = 0;
        } else if word == "-" {
            item.times = 0;
        } else if let Ok(arg) = word.parse::<u32>() {
            item.info.arg = OpArg(arg);
        } else {
            item.info.instr = instruction(word)?;
        }
    }
    Ok(item)
}

fn parse_block(alloc: Global, text: &str, next: BlockIdx) -> Result<Block, Failure> {
    let mut items: Vec<InstructionInfo> = Vec::new(alloc);
    let mut next = next;
    for part in text.split("; ") {
        let item = parse_item(part)?;
        let run = vec![in alloc; item.info; item.times as usize]?;
        items.extend_from_slice(&run)?;
        if let Some(given) = item.next {
            next = BlockIdx(given);
        }
    }
    Ok(Block {
        instructions: List::from_vec(items),
        next,
    })
}

/// Each block leads to the one after it where nothing else is said.
fn parse_blocks(alloc: Global, text: &str) -> Result<Blocks, Failure> {
    let mut blocks = Blocks::new(alloc);
    if text.is_empty() {
        return Ok(blocks);
    }
    let count = text.split("|").count();
    let mut after: u32 = 0;
    for part in text.split("|") {
        after = after.saturating_add(1);
        let next = if (after as usize) < count {
            BlockIdx(after)
        } else {
            BlockIdx::NULL
        };
        if blocks.push(parse_block(alloc, part, next)?).is_err() {
            return Err(Failure::OutOfMemory);
        }
    }
    Ok(blocks)
}

fn only_none(alloc: Global) -> Result<ConstantSet, Failure> {
    let mut constants = ConstantSet::new(alloc);
    match constants.insert_full(ConstantData::None) {
        Ok(_) => Ok(constants),
        Err(_) => Err(Failure::OutOfMemory),
    }
}

/// The code of these blocks, with the constant None and no names.
fn code_info(alloc: Global, given: &str) -> Result<CodeInfo, Failure> {
    Ok(CodeInfo {
        flags: CodeFlags::from_bits_retain(0),
        posonlyarg_count: 0,
        arg_count: 0,
        kwonlyarg_count: 0,
        source_path: text(alloc, "m.py")?,
        first_line_number: OneIndexed::MIN,
        obj_name: text(alloc, "f")?,
        blocks: parse_blocks(alloc, given)?,
        current_block: BlockIdx(0),
        constants: only_none(alloc)?,
        name_cache: NameSet::new(alloc),
        varname_cache: NameSet::new(alloc),
        cellvar_cache: NameSet::new(alloc),
        freevar_cache: NameSet::new(alloc),
    })
}

/// How many units, the depth, and the first ten units.
fn shown(alloc: Global, code: &CodeObject) -> Result<String, AllocError> {
    let count = code.instructions.len();
    let depth = code.max_stackdepth;
    let mut out = format!(in alloc; "{count} units, depth {depth}:")?;
    for unit in code.instructions.as_slice().iter().take(10) {
        let name = unit.op.name();
        let arg = unit.arg;
        out.push_str(format!(in alloc; " {name} {arg};")?.as_str())?;
    }
    Ok(out)
}

/// The code of blocks at a level, or why they have none.
pub fn finalized(alloc: Global, rest: &str) -> Result<String, Failure> {
    let (level, blocks) = rest.split_once(' ').ok_or(Failure::Line)?;
    let level = level.parse::<u8>().map_err(|_| Failure::Line)?;
    match code_info(alloc, blocks)?.finalize_code(alloc, level) {
        Ok(code) => Ok(shown(alloc, &code)?),
        Err(error) => Ok(format!(in alloc; "{error:?}")?),
    }
}

/// The next of the first block of two, and of the second once it is written to lead to this block.
pub fn lent_block(alloc: Global, rest: &str) -> Result<String, Failure> {
    let next = BlockIdx(number(rest)?);
    let mut blocks = parse_blocks(alloc, "Nop|Nop")?;
    if blocks.len() != 2 {
        return Err(Failure::Line);
    }
    blocks.block_mut(BlockIdx(1)).next = next;
    let first = blocks.block(BlockIdx(0)).next;
    let second = blocks.block(BlockIdx(1)).next;
    let alone = Block::new(alloc);
    Ok(format!(in alloc;
        "{} {}, {} of a new block {}",
        first.0,
        second.0,
        alone.next.0,
        alone.instructions.len()
    )?)
}

/// The entries of a code by their numbers: its constant, and the name, the local variable, the cell and the free variable
/// that the words are.
pub fn entries(alloc: Global, rest: &str) -> Result<String, Failure> {
    let mut info = code_info(alloc, "ReturnConst 0")?;
    let (name, rest) = rest.split_once(' ').ok_or(Failure::Line)?;
    let (varname, rest) = rest.split_once(' ').ok_or(Failure::Line)?;
    let (cell, free) = rest.split_once(' ').ok_or(Failure::Line)?;
    enter(alloc, &mut info.name_cache, name)?;
    enter(alloc, &mut info.varname_cache, varname)?;
    enter(alloc, &mut info.cellvar_cache, cell)?;
    enter(alloc, &mut info.freevar_cache, free)?;
    Ok(entries_text(alloc, &info)?)
}

/// The first entries, where each table has one.
fn entries_text(alloc: Global, info: &CodeInfo) -> Result<String, AllocError> {
    if info.constants.len() != 1 || info.name_cache.len() != 1 || info.varname_cache.len() != 1 {
        return String::from_str(alloc, "not one each");
    }
    if info.cellvar_cache.len() != 1 || info.freevar_cache.len() != 1 {
        return String::from_str(alloc, "not one each");
    }
    let is_none = matches!(info.get_constant(0), ConstantData::None);
    format!(in alloc;
        "{is_none} {} {} {} {}",
        info.get_name(0),
        info.get_varname(0),
        info.get_cell_name(0),
        info.get_cell_name(1)
    )
}
