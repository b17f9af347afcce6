//! Trees that are read and written again. Each line of standard input is the rows of a tree, or what is no rows; on standard
//! output the rows of the tree that was read stand in its place, or why there is none. A line that begins with `#` is copied.
#![tactic(auto)]

mod answers;
mod expressions;
mod fields;
mod parts;
mod row;
mod rows;
mod statements;
mod words;

use answers::answer;
use std::io::{self, BufRead, BufReader, BufWriter, Write};

fn main(rt: HostRuntime) -> io::Result<()> {
    let alloc = rt.alloc();
    let mut out = BufWriter::new(alloc, io::writer(&rt))?;
    for line in BufReader::new(alloc, rt.reader())?.split(alloc, b'\n') {
        let line = line?;
        if line.starts_with(b"#") {
            out.write_all(line.as_slice())?;
        } else {
            write!(out, "{}", answer(alloc, line.as_slice())?)?;
        }
        out.write_all(b"\n")?;
    }
    out.flush()
}
