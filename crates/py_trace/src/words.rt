//! Words, read as a script and a path.
ghost use Rattle.std.specs.Prelude.{◌≡◌, IfOk, option_map};
ghost use Rattle.py_trace.specs.Words.{asked_in, asked_of};

use crate::places::path_of;
use py_answers::Script;
use py_base::{List, Text};
use std::alloc::{AllocError, Global};

/// The words after the program's name.
pub type Words = List<Text>;

/// What the words ask for: the run over these answers of the code at the end of this path.
#[derive(Drop)]
pub struct Request {
    pub script: Script,
    pub path: Vec<usize>,
}

/// What the words ask for. None exactly where they are no script and places.
///
/// # Errors
/// There is no memory for the answers or the places.
pub fn parse(alloc: Global, words: &[Text]) -> Result<Option<Request>, AllocError>
    ensures { IfOk result (λ r. option_map asked_of r ≡ asked_in words.now) }
{
    let Some((script, places)) = words.split_first() else {
        return Ok(None);
    };
    let Some(script) = Script::parse(alloc, script.as_str())? else {
        return Ok(None);
    };
    let Some(path) = path_of(alloc, places)? else {
        return Ok(None);
    };
    Ok(Some(Request { script, path }))
}
