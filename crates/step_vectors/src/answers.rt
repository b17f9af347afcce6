//! What is written of a run.

use py_answers::{Script, push_trace};
use py_bytecode::CodeObject;
use py_codefile::read_code;
use py_step_machine::run_code;
use std::alloc::{AllocError, Global};

/// The code of a file that is written in hexadecimal digits.
fn code_of(alloc: Global, digits: &str) -> Option<CodeObject> {
    let bytes = hex::decode(alloc, digits).ok()?;
    read_code(alloc, &bytes).ok()
}

/// The lines of the run of a line, or why it has none.
pub fn answer(alloc: Global, line: &str) -> Result<String, AllocError> {
    let (digits, script) = line.split_once(' ').unwrap_or((line, ""));
    let Some(code) = code_of(alloc, digits) else {
        return String::from_str(alloc, "no code\n");
    };
    let Some(script) = Script::parse(alloc, script)? else {
        return String::from_str(alloc, "no script\n");
    };
    let trace = run_code(alloc, &code, &script)?;
    let mut lines = String::new(alloc);
    push_trace(&mut lines, &trace)?;
    Ok(lines)
}
