//! The readers and writers of std as a source and as sinks. As in std, a call that a signal interrupts is made again.
ghost use Rattle.std.specs.Prelude.{◌≢◌, IfErr};
ghost use Rattle.std.specs.Io.{ReadsAtMost, WritesAtMost};
ghost use Rattle.std.specs.Io.KnownBytes.{ReadConsumes, WriteAppends};
ghost use Rattle.std.specs.IoError.{error_kind};

use crate::sink::{Sink, WriteAnswer};
use crate::source::{ReadAnswer, Source};
use std::io::{self, ErrorKind, Read, Write};

/// Any reader of std, as standard input.
#[derive(Drop)]
pub struct StdSource<R: Read + Drop> {
    inner: R,
    faults: u64,
}

impl<R: Read + Drop> StdSource<R> {
    /// A source over this reader, with no fault met.
    pub fn new(inner: R) -> StdSource<R> {
        StdSource { inner, faults: 0 }
    }
}

impl<R: Read + Drop> Source for StdSource<R> {
    ghost use Rattle.std.specs.Prelude.{None, true};

    ghost left = { λ _. None };

    ghost faults = { λ s. s.faults };

    ghost counts_failures = { true };

    fn read(&mut self, buf: &mut [u8]) -> ReadAnswer {
        match read_again(&mut self.inner, buf) {
            Ok(0) => ReadAnswer::End,
            Ok(count) => ReadAnswer::Got(count),
            Err(_) => {
                self.faults = self.faults.saturating_add(1);
                ReadAnswer::Failed
            }
        }
    }
}

/// Any writer of std, as standard output and standard error.
#[derive(Drop)]
pub struct StdSink<W: Write + Drop> {
    inner: W,
    faults: u64,
}

impl<W: Write + Drop> StdSink<W> {
    /// A sink over this writer, with no fault met. Each write is flushed.
    pub fn new(inner: W) -> StdSink<W> {
        StdSink { inner, faults: 0 }
    }
}

impl<W: Write + Drop> Sink for StdSink<W> {
    ghost use Rattle.std.specs.Prelude.{None, true};

    ghost held = { λ _. None };

    ghost room = { λ _. None };

    ghost faults = { λ s. s.faults };

    ghost counts_failures = { true };

    fn write(&mut self, bytes: &[u8]) -> WriteAnswer {
        match write_again(&mut self.inner, bytes) {
            Ok(count) if 0 < count || bytes.is_empty() => match flush_again(&mut self.inner) {
                Ok(()) => WriteAnswer::Took(count),
                Err(_) => {
                    self.faults = self.faults.saturating_add(1);
                    WriteAnswer::Failed
                }
            },
            _ => {
                self.faults = self.faults.saturating_add(1);
                WriteAnswer::Failed
            }
        }
    }
}

/// One read, made again while a signal interrupts it.
///
/// # Errors
/// What the read failed of, which is no signal. `TimedOut` after 2^64 - 1 signals.
fn read_again<R: Read>(reader: &mut R, buf: &mut [u8]) -> io::Result<usize>
    ensures within { ReadsAtMost result buf.new }
    ensures bytes { ReadConsumes (R.remaining reader.old) (R.remaining reader.new) result buf.new }
    ensures again { IfErr result (λ e. error_kind e ≢ ErrorKind.Interrupted) }
{
    'tries: for _ in 0..u64::MAX {
        match reader.read(buf) {
            Err(e) if e.kind() == ErrorKind::Interrupted => {}
            answer => return answer,
        }
    }
    Err(ErrorKind::TimedOut.into())
}

/// One write, made again while a signal interrupts it.
///
/// # Errors
/// What the write failed of, which is no signal. `TimedOut` after 2^64 - 1 signals.
fn write_again<W: Write>(writer: &mut W, bytes: &[u8]) -> io::Result<usize>
    ensures within { WritesAtMost result bytes.now }
    ensures bytes { WriteAppends (W.contents writer.old) (W.contents writer.new) result bytes.now }
    ensures again { IfErr result (λ e. error_kind e ≢ ErrorKind.Interrupted) }
{
    'tries: for _ in 0..u64::MAX {
        match writer.write(bytes) {
            Err(e) if e.kind() == ErrorKind::Interrupted => {}
            answer => return answer,
        }
    }
    Err(ErrorKind::TimedOut.into())
}

/// One flush, made again while a signal interrupts it.
///
/// # Errors
/// What the flush failed of, which is no signal. `TimedOut` after 2^64 - 1 signals.
fn flush_again<W: Write>(writer: &mut W) -> io::Result<()>
    ensures again { IfErr result (λ e. error_kind e ≢ ErrorKind.Interrupted) }
{
    'tries: for _ in 0..u64::MAX {
        match writer.flush() {
            Err(e) if e.kind() == ErrorKind::Interrupted => {}
            answer => return answer,
        }
    }
    Err(ErrorKind::TimedOut.into())
}
