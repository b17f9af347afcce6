//! Reads and writes of std that fail at first.
ghost use Rattle.std.specs.Prelude.{◌≤◌, IfOk};

use std::io::{self, ErrorKind, Read, Write};

/// A reader and writer of single bytes, whose first calls fail.
#[derive(Drop)]
pub struct FailsAtFirst {
    pub calls: u32,
    pub kind: ErrorKind,
}

impl FailsAtFirst {
    fn one(&mut self, length: usize) -> io::Result<usize>
        ensures within { IfOk result (λ n. n ≤ length) }
    {
        if 0 < self.calls {
            self.calls -= 1;
            return Err(self.kind.into());
        }
        Ok(length.min(1))
    }
}

impl Read for FailsAtFirst {
    fn read(&mut self, buf: &mut [u8]) -> io::Result<usize> {
        self.one(buf.len())
    }
}

impl Write for FailsAtFirst {
    fn write(&mut self, buf: &[u8]) -> io::Result<usize> {
        self.one(buf.len())
    }

    fn flush(&mut self) -> io::Result<()> {
        Ok(())
    }
}
