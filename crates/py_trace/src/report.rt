//! What a run reports.

/// How a run ended. The number of each is the program's exit status.
#[derive(Clone, Copy, Debug, PartialEq, Eq)]
pub enum Status {
    /// The lines of the trace were written.
    Done = 0,
    /// The words are no script and places.
    Usage = 2,
    /// The input is no file of code, or no code stands at the path.
    Input = 3,
    /// A read failed.
    ReadFault = 4,
    /// A write failed, after a front of what was to be written.
    WriteFault = 5,
    /// There was no memory. Nothing was written.
    Memory = 6,
}

/// What is to be written.
#[derive(Drop)]
pub enum Due {
    /// The lines of the trace.
    Lines(String),
    /// The line that says how the program is called.
    Usage,
    /// The line that says what is wrong with the input.
    Input(String),
}

/// How a run ended, and what was written, where it came to that.
#[derive(Drop)]
pub struct Report {
    pub status: Status,
    pub due: Option<Due>,
}
