//! Listings of the codes that files hold.
ghost use Rattle.py_bytecode.specs.View.{object};
ghost use Rattle.py_codefile.specs.Reading.{file_at};
ghost use Rattle.py_run.specs.Prepared.{IsVerified, Readies, TellsFault};
ghost use Rattle.py_run.specs.Statuses.{by_file, file_text, flaw_text};
ghost use Rattle.py_run.specs.Words.{Unpack};

use crate::lines::{file_line, flaw_line};
use crate::preparing::{Prepared, listed};
use py_bytecode::CodeObject;
use py_codefile::{ReadCodeError, read_code};
use py_verify::{Verdict, verify};
use std::alloc::Global;

/// The code that the bytes spell with its listing, or why there is none.
pub fn unpacked(alloc: Global, bytes: &[u8]) -> Prepared
    ensures { Readies Unpack result (by_file bytes.now (file_at bytes.now)) }
{
    match read_code(alloc, bytes) {
        Ok(code) => verified(alloc, code),
        Err(ReadCodeError::OutOfMemory) => Prepared::Memory,
        Err(error) => no_file(alloc, &error),
    }
}

/// The code with its listing, where it has no verification error.
fn verified(alloc: Global, code: CodeObject) -> Prepared
    ensures { IsVerified result (object code) }
{
    match verify(alloc, &code) {
        Ok(Verdict::Yes) => listed(alloc, code),
        Ok(Verdict::No(_)) => flawed(alloc),
        Err(_) => Prepared::Memory,
    }
}

fn flawed(alloc: Global) -> Prepared
    ensures { TellsFault result flaw_text }
{
    match flaw_line(alloc) {
        Ok(line) => Prepared::Misread(line),
        Err(_) => Prepared::Memory,
    }
}

fn no_file(alloc: Global, error: &ReadCodeError) -> Prepared
    ensures { TellsFault result (file_text error.now) }
{
    match file_line(alloc, error) {
        Ok(line) => Prepared::Misread(line),
        Err(_) => Prepared::Memory,
    }
}
