//! What is answered.

use crate::cases::{Place, Question, bytes_of};
use py_bytecode::CodeObject;
use py_codefile::write_code;
use py_listing::listing;
use py_verify::{Verdict, verify};
use py_well_formed::well_formed;
use std::alloc::{AllocError, Global};

/// The answer to the question of a line: its name, where the code stands, and the bytes of a file.
pub fn answer(alloc: Global, line: &str) -> Result<String, AllocError> {
    let Some((question, words)) = Question::of_line(line) else {
        return String::from_str(alloc, "no question");
    };
    let (place, words) = Place::before(words);
    let Some(bytes) = bytes_of(alloc, words)? else {
        return String::from_str(alloc, "no bytes");
    };
    match place.code(alloc, &bytes) {
        Ok(code) => told(alloc, question, &code, &bytes),
        Err(error) => format!(in alloc; "{error:?}"),
    }
}

/// The answer to a question about a code, and the file that it is of.
fn told(
    alloc: Global,
    question: Question<'_>,
    code: &CodeObject,
    file: &[u8],
) -> Result<String, AllocError> {
    match question {
        Question::Read => String::from_str(alloc, "Ok"),
        Question::List => listing(alloc, code),
        Question::Write => written(alloc, code, file),
        Question::Verify => {
            let verdict = verify(alloc, code)?;
            format!(in alloc; "{verdict:?}")
        }
        Question::FlawAmong(flaws) => flaw_among(alloc, code, flaws),
        Question::Form => {
            let fault = well_formed(alloc, code)?;
            format!(in alloc; "{fault:?}")
        }
    }
}

/// Whether the code is written as this file, or why it is not written.
fn written(alloc: Global, code: &CodeObject, file: &[u8]) -> Result<String, AllocError> {
    match write_code(alloc, code) {
        Ok(bytes) => {
            let is_same = bytes.as_slice() == file;
            String::from_str(
                alloc,
                if is_same {
                    "the same file"
                } else {
                    "another file"
                },
            )
        }
        Err(error) => format!(in alloc; "{error:?}"),
    }
}

/// Whether these verification errors, as `PlaceOutside:3`, have the one that is found.
fn flaw_among(alloc: Global, code: &CodeObject, flaws: &str) -> Result<String, AllocError> {
    match verify(alloc, code)? {
        Verdict::Yes => String::from_str(alloc, "Yes"),
        Verdict::No(flaw) => {
            let found = format!(in alloc; "{:?}:{}", flaw.kind, flaw.unit)?;
            if flaws.split(',').any(|it| it == found.as_str()) {
                return String::from_str(alloc, "one of them");
            }
            Ok(found)
        }
    }
}
