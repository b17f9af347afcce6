//! Code objects as bytes: a canonical file of code. `write_code` gives the one spelling of a code object, and
//! `read_code` the code object that bytes spell.
//!
//! Numbers have the highest byte first. A text is a u32 length and that many bytes of UTF-8. A list is a u32 count
//! and its items. A file is the bytes `PYCODE`, 0, 1, and then one code.
//!
//! A code is: its flags as a u16; the counts of positional-only, positional and keyword-only parameters as u32; the
//! path; the first line as a u32, 0 for none; the name; the depth of the stack as a u32; the list of units, each an
//! instruction's number and a byte; the list of locations, each a row and a column as u32 from 1; the list of
//! constants; the names, local variables, cells and free names as lists of texts; a byte 0, or a byte 1 and the list
//! of the parameters that the cells are, as i32.
//!
//! A constant is a byte and what follows it: 0 None, 1 False, 2 True, 3 a text, 4 a list of bytes, 5 an i128, 6 a
//! list of constants, 7 Ellipsis, 8 a code. README.md gives the numbers of instructions, and `specs/Spelling.antt` says
//! all of this exactly.
#![tactic(auto)]

mod error;
mod fields;
mod files;
pub mod laws;
mod nesting;
mod opcodes;
mod parts;
mod reader;
mod reading;
mod tags;
mod writing;
mod writing_fields;

pub use error::{ReadCodeError, WriteCodeError};
pub use files::{read_code, write_code};
