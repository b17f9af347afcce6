//! Calls on a tree: what each emits, and what is said of the tree and of its parts. Each line of standard input is a question
//! and the rows of a tree; on standard output the answer stands in its place. A line that begins with `#` is copied: it gives
//! what follows.
#![tactic(auto)]

mod answers;
mod asked;
mod emitted;
mod failure;
mod limits;
mod parts;
mod questions;
mod samples;
mod scanned;

use answers::answer;
use std::io::{self, BufRead, BufReader, BufWriter, Write};

/// Answers each line that asks something.
fn main(rt: HostRuntime) -> io::Result<()> {
    let alloc = rt.alloc();
    let mut out = BufWriter::new(alloc, io::writer(&rt))?;
    for line in BufReader::new(alloc, rt.reader())?.lines(alloc) {
        let line = line?;
        if line.starts_with('#') {
            writeln!(out, "{line}")?;
        } else {
            writeln!(out, "{}", answer(alloc, line.as_str())?)?;
        }
    }
    out.flush()
}
