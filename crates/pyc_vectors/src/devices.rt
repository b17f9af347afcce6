//! Devices in memory that count the calls which should not be made of them.

use py_devices::{MemSink, MemSource, ReadAnswer, Sink, Source, WriteAnswer};

/// A source that counts the reads which are made of it after one that gave no byte.
#[derive(Drop)]
pub struct Watched {
    pub inner: MemSource,
    pub ended: bool,
    pub late: u64,
}

impl Source for Watched {
    ghost use Rattle.std.specs.Prelude.{Some, true};

    ghost left = { λ s. Some s.inner.left };

    ghost faults = { λ s. s.inner.faults };

    ghost counts_failures = { true };

    ghost ended = { λ s. s.ended };

    ghost late = { λ s. s.late };

    fn read(&mut self, buf: &mut [u8]) -> ReadAnswer {
        if self.ended {
            self.late = self.late.saturating_add(1);
        }
        let answer = self.inner.read(buf);
        self.ended = match answer {
            ReadAnswer::Got(count) => count == 0,
            ReadAnswer::End | ReadAnswer::Failed => true,
        };
        answer
    }
}

/// A sink that awaits a text, and counts the writes which are handed less than all of it that is left.
#[derive(Drop)]
pub struct Awaiting<'a> {
    pub inner: MemSink,
    pub left: &'a [u8],
    pub partial: u64,
}

impl<'a> Sink for Awaiting<'a> {
    ghost use Rattle.std.specs.Prelude.{Some, None, true};

    ghost held = { λ s. Some s.inner.held };

    ghost room = { λ _. None };

    ghost faults = { λ s. s.inner.faults };

    ghost counts_failures = { true };

    ghost awaited = { λ s. Some s.left.now };

    ghost partial = { λ s. s.partial };

    fn write(&mut self, bytes: &[u8]) -> WriteAnswer {
        let answer = self.inner.write(bytes);
        if bytes != self.left {
            self.partial = self.partial.saturating_add(1);
        } else if let WriteAnswer::Took(count) = answer {
            self.left = &self.left[count..];
        }
        answer
    }
}
