//! Runs of trees and their codes over scripts. Standard input has a line with the rows of a tree, and after it a line `run`
//! with a mode, a level and a script for each of its runs. On standard output stand each such line, the lines of both runs,
//! and an empty line.
#![tactic(auto)]

mod answers;

use answers::run_lines;
use std::io::{self, BufRead, BufReader, BufWriter, Write};

/// Answers each line `run`.
fn main(rt: HostRuntime) -> io::Result<()> {
    let alloc = rt.alloc();
    let mut out = BufWriter::new(alloc, io::writer(&rt))?;
    let mut rows = String::new(alloc);
    for line in BufReader::new(alloc, rt.reader())?.lines(alloc) {
        let line = line?;
        if let Some(run) = line.strip_prefix("run ") {
            writeln!(out, "{line}")?;
            writeln!(out, "{}", run_lines(alloc, rows.as_str(), run)?)?;
        } else {
            rows = line;
        }
    }
    out.flush()
}
