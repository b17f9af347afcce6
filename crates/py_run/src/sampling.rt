//! Codes of made programs, as summaries.
ghost use Rattle.std.specs.Prelude.{◌<◌, ◌^◌};
ghost use Rattle.py_tree.specs.View.{mod_tree};
ghost use Rattle.py_run.specs.Prepared.{Compiles, IsSummed, Readies};
ghost use Rattle.py_run.specs.Statuses.{due_code, sample_compilation, due_sample};
ghost use Rattle.py_run.specs.Words.{Sample};

use crate::compiling::code_of_tree;
use crate::preparing::Prepared;
use crate::words::Compilation;
use py_bytecode::CodeObject;
use py_sample::{sample, samples_are_faultless, summary};
use py_tree::{Mod, Mode, Text};
use std::alloc::Global;

/// The path that the code of a made program names.
const PATH: &str = "sample";

/// The code of the program of so many statements with its summary. There is one unless memory ran out, since a made
/// program has no fault.
pub fn sampled(alloc: Global, count: u32, level: u8) -> Prepared
    requires { count < 2 ^ 17 }
    ensures { Readies (Sample count level) result (due_sample count level) }
{
    samples_are_faultless();
    let Ok(tree) = sample(alloc, count) else {
        return Prepared::Memory;
    };
    let code = code_of_sample(alloc, level, &tree);
    tree.discard();
    match code {
        Ok(code) => summed(alloc, count, code),
        Err(prepared) => prepared,
    }
}

/// The code of a made program.
///
/// # Errors
/// What is to be written in place of it.
fn code_of_sample(alloc: Global, level: u8, tree: &Mod) -> Result<CodeObject, Prepared>
    ensures { Compiles result (due_code (sample_compilation level) (mod_tree tree.now)) }
{
    let Ok(path) = String::from_str(alloc, PATH) else {
        return Err(Prepared::Memory);
    };
    let path = Text::from_string(path);
    let compilation = Compilation {
        mode: Mode::Exec,
        level,
        path: &path,
    };
    code_of_tree(alloc, &compilation, tree)
}

/// A code with its summary.
fn summed(alloc: Global, count: u32, code: CodeObject) -> Prepared
    ensures { IsSummed result count code }
{
    match summary(alloc, count, &code) {
        Ok(text) => Prepared::Code(code, text.into_bytes()),
        Err(_) => Prepared::Memory,
    }
}
