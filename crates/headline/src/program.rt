//! The program over rows in memory, whose contract says what that of `compile_rows` says.
ghost use Rattle.headline.specs.Program.{OwesFor};

use py_base::List;
use py_devices::{CleanSink, CleanSource};
use py_run::{Report, Words, run};
use std::alloc::Global;

/// How a run ended, and what it wrote.
#[derive(Drop)]
pub struct Ended {
    pub report: Report,
    /// The text that was asked for.
    pub out: CleanSink,
    /// The line that says why there is none.
    pub err: CleanSink,
}

/// Runs the program over rows in memory, with these words, into two buffers, whatever they hold now. What has no room in its
/// buffer is not written, and then the status is `WriteFault`.
pub fn run_rows(alloc: Global, words: &Words, rows: List<u8>, out: List<u8>, err: List<u8>) -> Ended
    ensures { OwesFor rows words.now result.report.status result.out.held result.err.held }
{
    let mut source = CleanSource::new(rows);
    let mut out = CleanSink::new(out);
    let mut err = CleanSink::new(err);
    let report = run(alloc, words, &mut source, &mut out, &mut err);
    Ended { report, out, err }
}
