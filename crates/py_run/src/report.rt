//! What a run reports.
use py_bytecode::CodeObject;

/// How a run ended. The number of each is the program's exit status.
#[derive(Clone, Copy, Debug, PartialEq, Eq)]
pub enum Status {
    /// What the words ask for was written: a listing, a file of code, or a report.
    Done,
    /// The tree is refused, and the first fault written.
    Refused,
    /// The words are those of no command.
    Usage,
    /// The input is not the rows of a tree, or not a file of sound code.
    Input,
    /// A read failed.
    ReadFault,
    /// A write failed, after a front of what was to be written.
    WriteFault,
    /// There was no memory. Nothing was written.
    Memory,
}

/// How a run ended, and the code whose text was written, where such writing was begun.
#[derive(Drop)]
pub struct Report {
    pub status: Status,
    pub code: Option<CodeObject>,
}
