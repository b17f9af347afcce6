//! What is written of a case.

use codegen::CompileOpts;
use codegen::compile::compile_top;
use py_bytecode::CodeObject;
use py_rows::read_rows;
use py_step::{Script, run_script};
use py_tree::{Mod, Mode, Text};
use std::alloc::{AllocError, Global};

/// A line that says what is wrong with a case.
fn wrong(alloc: Global, what: &str) -> Result<String, AllocError> {
    format!(in alloc; "wrong: {what}\n")
}

fn mode_of(word: &str) -> Mode {
    match word {
        "eval" => Mode::Eval,
        "single" => Mode::Single,
        "block" => Mode::BlockExpr,
        _ => Mode::Exec,
    }
}

fn level_of(word: &str) -> u8 {
    match word {
        "1" => 1,
        "2" => 2,
        _ => 0,
    }
}

/// The lines of both runs of the tree whose rows these are, in a mode, at a level and over a script, which are the words of
/// the case.
pub fn run_lines(alloc: Global, rows: &str, case: &str) -> Result<String, AllocError> {
    if rows.len() >= 1 << 26 {
        return wrong(alloc, "rows");
    }
    let mut words = case.split(' ');
    let mode = mode_of(words.next().unwrap_or(""));
    let level = level_of(words.next().unwrap_or(""));
    let Some(script) = Script::parse(alloc, words.next().unwrap_or(""))? else {
        return wrong(alloc, "script");
    };
    let Ok(tree) = read_rows(alloc, rows.as_bytes()) else {
        return wrong(alloc, "rows");
    };
    let text = both_lines(alloc, &tree, mode, level, &script);
    tree.discard();
    text
}

/// The lines of both runs of a tree that compiles.
fn both_lines(
    alloc: Global,
    tree: &Mod,
    mode: Mode,
    level: u8,
    script: &Script,
) -> Result<String, AllocError> {
    let path = Text::from_string(String::from_str(alloc, "m.py")?);
    let opts = CompileOpts { optimize: level };
    match compile_top(alloc, tree, path, mode, opts) {
        Ok(code) => report_lines(alloc, &code, tree, mode, level, script),
        Err(_) => wrong(alloc, "tree"),
    }
}

/// The lines of the runs of a code and a tree.
fn report_lines(
    alloc: Global,
    code: &CodeObject,
    tree: &Mod,
    mode: Mode,
    level: u8,
    script: &Script,
) -> Result<String, AllocError> {
    let report = run_script(alloc, code, tree, mode, level, script)?;
    report.to_text(alloc)
}
