//! Where bytes come from and where they go: sources and sinks in memory, and the readers and writers of std.
#![tactic(auto)]

mod buffer;
mod clean;
mod memory;
mod sink;
mod source;
mod standard;

pub use clean::{CleanSink, CleanSource};
pub use memory::{MemSink, MemSource};
pub use sink::{Sink, WriteAnswer};
pub use source::{ReadAnswer, Source};
pub use standard::{StdSink, StdSource};
