//! A run of a code as a program: a file of code on standard input, the lines of its trace on standard output.
#![tactic(auto)]

#[cfg(test)]
mod tests;

use py_base::{List, Text};
use py_devices::{StdSink, StdSource};
use py_trace::{Status, Words, trace};
use std::env::{self, Env};
use std::io;
use std::process::ExitCode;

/// Runs the words after the program's name over the three standard ends, and ends with the status of the run.
fn main(rt: HostRuntime) -> ExitCode {
    let status = match gathered(&rt) {
        Ok(words) => {
            let mut source = StdSource::new(rt.stdin());
            let mut out = StdSink::new(rt.stdout());
            let mut err = StdSink::new(rt.stderr());
            trace(rt.alloc(), &words, &mut source, &mut out, &mut err).status
        }
        Err(status) => status,
    };
    ExitCode::from(status as u8)
}

/// The words after the program's name.
///
/// # Errors
/// `Usage` where a word is not UTF-8, `Memory` where there is no memory for the words.
fn gathered(rt: &(impl Env + AllocGlobal)) -> Result<Words, Status> {
    let mut words = List::new(rt.alloc());
    let args = env::args(rt).map_err(status_of)?;
    for word in args.skip(1) {
        if words.push(Text::from_string(word)).is_err() {
            return Err(Status::Memory);
        }
    }
    Ok(words)
}

fn status_of(error: io::Error) -> Status {
    if error.kind() == io::ErrorKind::OutOfMemory {
        Status::Memory
    } else {
        Status::Usage
    }
}
