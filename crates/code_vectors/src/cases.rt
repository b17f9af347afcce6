//! The cases, as lines tell them.

use py_base::List;
use py_bytecode::{CodeObject, ConstantData};
use py_codefile::{ReadCodeError, read_code};
use std::alloc::{AllocError, Global};
use std::mem;

/// What is asked of a code.
#[derive(Clone, Copy)]
pub enum Question<'a> {
    /// Whether the file is read.
    Read,
    /// The listing of the code.
    List,
    /// Whether the code is written as this file again.
    Write,
    /// What `verify` says of the code.
    Verify,
    /// Whether the verification error that `verify` finds is one of these.
    FlawAmong(&'a str),
    /// What `well_formed` says of the code.
    Form,
}

impl<'a> Question<'a> {
    /// The question with which a line begins, and the rest of the line.
    pub fn of_line(line: &'a str) -> Option<(Question<'a>, &'a str)> {
        let (name, rest) = line.split_once(' ')?;
        match name {
            "read" => Some((Question::Read, rest)),
            "list" => Some((Question::List, rest)),
            "write" => Some((Question::Write, rest)),
            "verify" => Some((Question::Verify, rest)),
            "form" => Some((Question::Form, rest)),
            "flaw-among" => {
                let (flaws, rest) = rest.split_once(' ')?;
                Some((Question::FlawAmong(flaws), rest))
            }
            _ => None,
        }
    }
}

/// The bytes that these words spell, one after the other: hexadecimal digits, and `*` and a number after those that stand
/// there so often. None where a word is spelled otherwise.
pub fn bytes_of(alloc: Global, words: &str) -> Result<Option<Vec<u8>>, AllocError> {
    let mut bytes = Vec::new(alloc);
    for word in words.split_whitespace() {
        let (digits, times) = word.split_once('*').unwrap_or((word, "1"));
        let (Ok(part), Ok(times)) = (hex::decode(alloc, digits), times.parse::<u32>()) else {
            return Ok(None);
        };
        for _ in 0..times {
            bytes.extend_from_slice(&part)?;
        }
    }
    Ok(Some(bytes))
}

/// Where the code of a file stands.
#[derive(Clone, Copy)]
pub enum Place {
    Alone,
    /// In the place of its constants is a tuple of them.
    AroundTuple,
    /// It is the one constant of the same code once more.
    WithinCode,
}

impl Place {
    /// The place that the first of these words names, and the other words.
    pub fn before(words: &str) -> (Place, &str) {
        match words.split_once(' ') {
            Some(("around-tuple", rest)) => (Place::AroundTuple, rest),
            Some(("within-code", rest)) => (Place::WithinCode, rest),
            _ => (Place::Alone, words),
        }
    }

    /// The code that these bytes spell, in this place.
    ///
    /// # Errors
    /// The bytes are no file of code, or out of memory.
    pub fn code(self, alloc: Global, bytes: &[u8]) -> Result<CodeObject, ReadCodeError> {
        let mut code = read_code(alloc, bytes)?;
        match self {
            Place::Alone => {}
            Place::AroundTuple => {
                let elements = mem::replace(&mut code.constants, List::new(alloc));
                code.constants = only(alloc, ConstantData::Tuple { elements })?;
            }
            Place::WithinCode => {
                let nested_code = mem::replace(&mut code, read_code(alloc, bytes)?);
                let nested_code = Box::new(alloc, nested_code)?;
                code.constants = only(alloc, ConstantData::Code { code: nested_code })?;
            }
        }
        Ok(code)
    }
}

/// This constant and no other.
fn only(alloc: Global, constant: ConstantData) -> Result<List<ConstantData>, AllocError> {
    Ok(List::from_vec(vec![in alloc; constant]?))
}
