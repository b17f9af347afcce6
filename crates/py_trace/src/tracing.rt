//! From the bytes of an input to what is due.
ghost use Rattle.std.specs.Prelude.{◌≡◌, IfOk, codes};
ghost use Rattle.py_bytecode.specs.View.{object};
ghost use Rattle.py_codefile.specs.Reading.{file_at};
ghost use Rattle.py_trace.specs.Dues.{IsDue, OfCode, OfFile, Says, Tells, bad_at, file_text, trace_text};
ghost use Rattle.py_trace.specs.Words.{asked_of};

use crate::among::code_along;
use crate::reading::INPUT_LIMIT;
use crate::report::Due;
use crate::words::Request;
use py_answers::{Script, push_trace};
use py_bytecode::CodeObject;
use py_codefile::{ReadCodeError, read_code};
use py_step_machine::run_code;
use std::alloc::{AllocError, Global};

/// What is due for a request and the bytes of the input.
///
/// # Errors
/// There is no memory for the code, its run or the text.
pub fn due_of(alloc: Global, request: &Request, bytes: &[u8]) -> Result<Due, AllocError>
    ensures { IfOk result (IsDue (asked_of request.now) bytes.now) }
{
    if bytes.len() >= INPUT_LIMIT {
        let line = String::from_str(alloc, "input: too long\n")?;
        return Ok(Due::Input(line));
    }
    of_file(alloc, request, bytes)
}

/// What is due for a file.
fn of_file(alloc: Global, request: &Request, bytes: &[u8]) -> Result<Due, AllocError>
    ensures { IfOk result (OfFile (asked_of request.now) (file_at bytes.now)) }
{
    match read_code(alloc, bytes) {
        Ok(code) => of_code(alloc, request, &code),
        Err(ReadCodeError::OutOfMemory) => Err(AllocError),
        Err(error) => of_error(alloc, &error),
    }
}

/// The line that says where the first bad field of a file begins.
fn of_error(alloc: Global, error: &ReadCodeError) -> Result<Due, AllocError>
    ensures { IfOk result (Says (file_text error.now)) }
{
    let at = bad_at(error);
    let line = format!(in alloc; "input: bad code file at {at}\n")?;
    Ok(Due::Input(line))
}

fn bad_at(error: &ReadCodeError) -> u64
    ensures { result ≡ bad_at error.now }
{
    match error {
        ReadCodeError::Magic { at }
        | ReadCodeError::Truncated { at }
        | ReadCodeError::BadOpcode { at }
        | ReadCodeError::BadTag { at }
        | ReadCodeError::BadText { at }
        | ReadCodeError::ZeroLocation { at }
        | ReadCodeError::TooDeep { at }
        | ReadCodeError::Trailing { at } => *at,
        ReadCodeError::OutOfMemory => 0,
    }
}

/// What is due for the code of a file. It need not verify: each code has a run.
fn of_code(alloc: Global, request: &Request, code: &CodeObject) -> Result<Due, AllocError>
    ensures { IfOk result (OfCode (asked_of request.now) (object code.now)) }
{
    match code_along(code, request.path.as_slice()) {
        Some(reached) => lines(alloc, reached, &request.script),
        None => no_code(alloc),
    }
}

/// The lines of the run of a code over a script.
fn lines(alloc: Global, code: &CodeObject, script: &Script) -> Result<Due, AllocError>
    ensures { IfOk result (Tells (trace_text script.now.answers (object code.now))) }
{
    let trace = run_code(alloc, code, script)?;
    let mut text = String::new(alloc);
    push_trace(&mut text, &trace)?;
    Ok(Due::Lines(text))
}

/// The line that says that no code is at the end of a path.
fn no_code(alloc: Global) -> Result<Due, AllocError>
    ensures { IfOk result (Says (codes "no code at this path")) }
{
    let line = String::from_str(alloc, "input: no code at this path\n")?;
    Ok(Due::Input(line))
}
