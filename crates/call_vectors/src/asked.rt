//! What is asked of parts of a tree.

use crate::failure::Failure;
use py_calls::tree::annotation_text;
use py_calls::{contains_await, find_ann, split_doc};
use py_emit::CompileOpts;
use py_tree::Mod;
use std::alloc::Global;

/// Of an expression its text as an annotation, and whether it awaits; of a file its docstring, where the other statements
/// begin, and whether one of them is annotated.
pub fn parts(alloc: Global, program: &Mod) -> Result<String, Failure> {
    match program {
        Mod::Expression(m) => {
            let Ok(text) = annotation_text(alloc, &m.body) else {
                return Err(Failure::Line);
            };
            let awaits = contains_await(&m.body);
            Ok(format!(in alloc; "{text} {awaits}")?)
        }
        Mod::Module(m) => {
            let (doc, from) = split_doc(alloc, &m.body, CompileOpts::default())?;
            let notes = find_ann(&m.body, from);
            Ok(format!(in alloc; "{doc:?} {from} {notes}")?)
        }
        _ => Err(Failure::Line),
    }
}
