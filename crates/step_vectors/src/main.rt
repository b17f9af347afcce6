//! Runs of codes over scripts. Standard input has a run a line: a code file in hexadecimal digits, a space and a script.
//! On standard output stand the lines of each run, and an empty line after them.
#![tactic(auto)]

mod answers;

use answers::answer;
use std::io::{self, BufRead, BufReader, BufWriter, Write};

/// Answers each line.
fn main(rt: HostRuntime) -> io::Result<()> {
    let alloc = rt.alloc();
    let mut out = BufWriter::new(alloc, io::writer(&rt))?;
    for line in BufReader::new(alloc, rt.reader())?.lines(alloc) {
        let line = line?;
        writeln!(out, "{}", answer(alloc, line.as_str())?)?;
    }
    out.flush()
}
