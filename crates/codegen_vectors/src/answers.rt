//! What is written of a case.

use crate::scanned::scanned;
use codegen::CompileOpts;
use codegen::compile::{
    compile_block_expression, compile_expression, compile_program, compile_program_single,
    compile_top,
};
use codegen::error::CodegenError;
use py_bytecode::CodeObject;
use py_listing::listing;
use py_rows::read_rows;
use py_tree::{Mod, Mode, Text};
use py_verify::{Verdict, verify};
use std::alloc::{AllocError, Global};

/// The path of each program.
pub fn path(alloc: Global) -> Result<Text, AllocError> {
    Ok(Text::from_string(String::from_str(alloc, "m.py")?))
}

/// Where the fault stands, and what it is.
pub fn refusal_line(alloc: Global, error: &CodegenError) -> Result<String, AllocError> {
    match error.location {
        Some(at) => { format!(in alloc; "{}:{} {}\n", at.row.get(), at.column.get(), error.error) }
        None => format!(in alloc; "-:- {}\n", error.error),
    }
}

/// The call that a case is for.
#[derive(Clone, Copy)]
enum Call {
    Top(Mode),
    Program,
    ProgramSingle,
    BlockExpression,
    Expression,
    /// The names of the file's own scope, and no code.
    Scan,
}

/// The call that is the first word, or its mode, and the level that is the second.
fn ways_of(head: &str) -> (Call, CompileOpts) {
    let mut words = head.split(' ');
    let call = match words.next() {
        Some("eval") => Call::Top(Mode::Eval),
        Some("single") => Call::Top(Mode::Single),
        Some("block") => Call::Top(Mode::BlockExpr),
        Some("compile_program") => Call::Program,
        Some("compile_program_single") => Call::ProgramSingle,
        Some("compile_block_expression") => Call::BlockExpression,
        Some("compile_expression") => Call::Expression,
        Some("scan_program") => Call::Scan,
        _ => Call::Top(Mode::Exec),
    };
    let optimize = match words.next() {
        Some("1") => 1,
        Some("2") => 2,
        _ => 0,
    };
    (call, CompileOpts { optimize })
}

/// What the call answers for the tree. One that takes a part of a tree is handed that of a tree of its form.
fn called(
    alloc: Global,
    call: Call,
    tree: &Mod,
    source_path: Text,
    opts: CompileOpts,
) -> Result<CodeObject, CodegenError> {
    match (call, tree) {
        (Call::Program, Mod::Module(m)) => compile_program(alloc, &m.body, source_path, opts),
        (Call::ProgramSingle, Mod::Interactive(m)) => {
            compile_program_single(alloc, &m.body, source_path, opts)
        }
        (Call::BlockExpression, Mod::Interactive(m)) => {
            compile_block_expression(alloc, &m.body, source_path, opts)
        }
        (Call::Expression, Mod::Expression(m)) => {
            compile_expression(alloc, &m.body, source_path, opts)
        }
        (Call::Top(mode), tree) => compile_top(alloc, tree, source_path, mode, opts),
        (_, tree) => compile_top(alloc, tree, source_path, Mode::Exec, opts),
    }
}

/// The listing of a code, and the verification error of one that does not verify.
fn judged(alloc: Global, code: &CodeObject) -> Result<String, AllocError> {
    let text = listing(alloc, code)?;
    match verify(alloc, code)? {
        Verdict::Yes => Ok(text),
        flawed => format!(in alloc; "{text}{flawed:?}\n"),
    }
}

/// The listing of the code of the tree, or the line that says why there is none.
fn told(alloc: Global, call: Call, tree: &Mod, opts: CompileOpts) -> Result<String, AllocError> {
    if let Call::Scan = call {
        return scanned(alloc, tree);
    }
    match called(alloc, call, tree, path(alloc)?, opts) {
        Ok(code) => judged(alloc, &code),
        Err(error) => refusal_line(alloc, &error),
    }
}

/// The listing of the code of the tree whose rows these are, or the line that says why there is none. The first two words
/// of the head are the mode, or the name of another call than `compile_top`, and the level.
pub fn answer(alloc: Global, head: &str, rows: &str) -> Result<String, AllocError> {
    if rows.len() >= 1 << 26 {
        return String::from_str(alloc, "input: too long\n");
    }
    let tree = match read_rows(alloc, rows.as_bytes()) {
        Ok(tree) => tree,
        Err(error) => return format!(in alloc; "input: {error}\n"),
    };
    let (call, opts) = ways_of(head);
    let text = told(alloc, call, &tree, opts);
    tree.discard();
    text
}
