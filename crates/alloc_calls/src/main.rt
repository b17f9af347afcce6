//! One call of the library, and what it needs. The word names it, standard input holds what it is given, and its answer is
//! written on standard output once it is whole. The status is 0, or 1 where the call refuses what it is given, 2 where no
//! call has that name, 3 where the input is too long or could not be read, 5 where the answer could not be written, and 6
//! where there was no memory.
#![tactic(auto)]

mod blocks;
mod calls;
mod failure;

use calls::answer;
use failure::Failure;
use std::env;
use std::io::{Read, Write};
use std::process::ExitCode;

/// Makes the call that the word names, on the bytes of standard input.
fn main(rt: HostRuntime) -> ExitCode {
    let status = match answered(&rt) {
        Ok(answer) => match rt.stdout().write_all(answer.as_slice()) {
            Ok(()) => 0,
            Err(_) => 5,
        },
        Err(failure) => failure.status(),
    };
    ExitCode::from(status)
}

/// What the call answers.
fn answered(rt: &HostRuntime) -> Result<Vec<u8>, Failure> {
    let alloc = rt.alloc();
    let Some(word) = env::args(rt)?.skip(1).next() else {
        return Err(Failure::Unknown);
    };
    let mut input = Vec::new(alloc);
    rt.stdin().read_to_end(&mut input)?;
    answer(alloc, word.as_str(), input.as_slice())
}
