//! Each call once, on `f(a + 1)` or on a single instruction.

use examples::{
    Ended, code_of_file, has_right_scopes, laid_out, may_run, run_in_memory, safe_code,
    text_of_runs,
};
use py_base::{List, OneIndexed, SourceLocation, Text};
use py_bytecode::{CodeFlags, CodeObject, ConstantData, Instruction, OpArg};
use py_codefile::write_code;
use py_ir::{Block, BlockIdx, Blocks, CodeInfo, ConstantSet, InstructionInfo, NameSet};
use py_listing::listing;
use py_rows::read_rows;
use py_run::Status;
use py_step::Script;
use py_tree::Mod;
use std::alloc::{AllocError, Global};
use std::test::Fail;

/// The rows of `f(a + 1)`.
const CALL: &str =
    r#"[["Name",1,1,"f"],["Name",1,3,"a"],["int","1"],["Constant",1,7,2],["BinOp",1,3,1,"Add",3],["Call",1,1,0,[4],[]],["Expr",1,1,5],["Module",[6]]]"#;

/// The listing of its code, as tools/model/compile_rows.py gives it.
const LISTING: &str =
    "code '<module>' from 'm.py' line 1 flags 1 args 0 0 0 depth 3\nconstants: 1, None\nnames: 'f', 'a'\n0 1:1 LoadNameAny 0 'f'\n1 1:3 LoadNameAny 1 'a'\n2 1:7 LoadConst 0 1\n3 1:7 BinaryOperation 0 Add\n4 1:7 CallFunctionPositional 1\n5 1:7 Pop\n6 1:7 ReturnConst 1 None\n";

fn text(alloc: Global, s: &str) -> Result<Text, AllocError> {
    Ok(Text::from_string(String::from_str(alloc, s)?))
}

fn tree(alloc: Global, rows: &str) -> Result<Mod, Fail> {
    if rows.len() >= 1 << 26 {
        return Err("too long".into());
    }
    Ok(read_rows(alloc, rows.as_bytes())?)
}

fn compiled(alloc: Global) -> Result<CodeObject, Fail> {
    let path = text(alloc, "m.py")?;
    let tree = tree(alloc, CALL)?;
    let code = code_of_file(alloc, &tree, path);
    tree.discard();
    match code {
        Ok(code) => Ok(code),
        Err(_) => Err("refused".into()),
    }
}

#[test]
fn compiles_a_file(rt: HostRuntime) -> Result<(), Fail> {
    let alloc = rt.alloc();
    let code = compiled(alloc)?;
    assert_eq!(rt; listing(alloc, &code)?.as_str(), LISTING);
    Ok(())
}

fn has_right(alloc: Global, rows: &str) -> Result<bool, Fail> {
    let tree = tree(alloc, rows)?;
    let right = match &tree {
        Mod::Module(file) => has_right_scopes(alloc, &file.body),
        _ => Ok(false),
    };
    tree.discard();
    Ok(right?)
}

#[test]
fn looks_at_scopes(rt: HostRuntime) -> Result<(), Fail> {
    let alloc = rt.alloc();
    assert!(rt; has_right(alloc, CALL)?);
    // nonlocal a
    assert!(rt; !has_right(alloc, r#"[["Nonlocal",1,1,["a"]],["Module",[0]]]"#)?);
    Ok(())
}

/// One block, which returns None.
fn one_block(alloc: Global) -> Result<CodeInfo, Fail> {
    let mut constants = ConstantSet::new(alloc);
    let is_kept = constants.insert_full(ConstantData::None).is_ok();
    let mut instructions = Vec::new(alloc);
    instructions.push(InstructionInfo {
        instr: Instruction::ReturnConst,
        arg: OpArg(0),
        target: BlockIdx::NULL,
        location: SourceLocation::default(),
    })?;
    let mut blocks = Blocks::new(alloc);
    let block = Block {
        instructions: List::from_vec(instructions),
        next: BlockIdx::NULL,
    };
    if !is_kept || blocks.push(block).is_err() {
        return Err("no memory".into());
    }
    Ok(CodeInfo {
        flags: CodeFlags::NEW_LOCALS,
        posonlyarg_count: 0,
        arg_count: 0,
        kwonlyarg_count: 0,
        source_path: text(alloc, "m.py")?,
        first_line_number: OneIndexed::MIN,
        obj_name: text(alloc, "<module>")?,
        blocks,
        current_block: BlockIdx(0),
        constants,
        name_cache: NameSet::new(alloc),
        varname_cache: NameSet::new(alloc),
        cellvar_cache: NameSet::new(alloc),
        freevar_cache: NameSet::new(alloc),
    })
}

#[test]
fn lays_blocks_out(rt: HostRuntime) -> Result<(), Fail> {
    let alloc = rt.alloc();
    match laid_out(alloc, one_block(alloc)?) {
        Ok(code) => {
            assert_eq!(rt; code.instructions.len(), 1);
            assert_eq!(rt; code.max_stackdepth, 0);
        }
        Err(_) => return Err("refused".into()),
    }
    Ok(())
}

#[test]
fn reads_safe_code(rt: HostRuntime) -> Result<(), Fail> {
    let alloc = rt.alloc();
    let mut code = compiled(alloc)?;
    assert!(rt; may_run(alloc, &code)?);
    let bytes = write_code(alloc, &code)?;
    match safe_code(alloc, bytes.as_slice())? {
        Some(read) => assert_eq!(rt; listing(alloc, &read)?.as_str(), LISTING),
        None => return Err("a flaw".into()),
    }
    // One value less on the stack than the code needs.
    code.max_stackdepth = 2;
    assert!(rt; !may_run(alloc, &code)?);
    let bytes = write_code(alloc, &code)?;
    assert!(rt; safe_code(alloc, bytes.as_slice())?.is_none());
    Ok(())
}

/// Both runs over four values, as machine.py and meaning.py of tools/model give them.
const RUNS: &str =
    "code\nload 'f'\nload 'a'\nop BinaryOperation Add: #1.0, 1\nop CallFunctionPositional 1: #0.0, #2.0\nreturned None\ntree\nload 'f'\nload 'a'\nop BinaryOperation Add: #1.0, 1\nop CallFunctionPositional 1: #0.0, #2.0\nreturned None\n";

#[test]
fn runs_over_a_script(rt: HostRuntime) -> Result<(), Fail> {
    let alloc = rt.alloc();
    let code = compiled(alloc)?;
    let Some(script) = Script::parse(alloc, "g1,g1,g1,g1")? else {
        return Err("no script".into());
    };
    let tree = tree(alloc, CALL)?;
    let text = text_of_runs(alloc, &code, &tree, &script);
    tree.discard();
    assert_eq!(rt; text?.as_str(), RUNS);
    Ok(())
}

fn room(alloc: Global, size: usize) -> Result<List<u8>, AllocError> {
    Ok(List::from_vec(vec![in alloc; 0u8; size]?))
}

/// A run over the rows, with so much room for the listing.
fn ended(alloc: Global, size: usize) -> Result<Ended, AllocError> {
    let mut words = Vec::new(alloc);
    for word in ["exec", "0", "m.py"] {
        words.push(text(alloc, word)?)?;
    }
    let words = List::from_vec(words);
    let rows = List::from_vec(Vec::from_slice(alloc, CALL.as_bytes())?);
    let out = room(alloc, size)?;
    let err = room(alloc, 64)?;
    Ok(run_in_memory(alloc, &words, rows, out, err))
}

#[test]
fn runs_in_memory(rt: HostRuntime) -> Result<(), Fail> {
    let alloc = rt.alloc();
    let done = ended(alloc, 1024)?;
    assert_eq!(rt; done.report.status, Status::Done);
    assert_eq!(rt; done.out.bytes(), LISTING.as_bytes());
    assert_eq!(rt; done.err.bytes().len(), 0);
    let full = ended(alloc, 16)?;
    assert_eq!(rt; full.report.status, Status::WriteFault);
    assert_eq!(rt; full.out.bytes().len(), 0);
    Ok(())
}
