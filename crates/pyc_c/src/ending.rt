//! A run over bytes in memory.
ghost use Rattle.std.specs.Prelude.{◌≡◌, ◌≤◌, IfOk, length};
ghost use Rattle.py_run.specs.Words.{words_form};
ghost use Rattle.pyc_c.specs.Runs.{IsOffered, IsRun, empty_shelf, written_with};

use crate::front::put_front;
use py_base::List;
use py_devices::{CleanSink, CleanSource};
use py_run::{Status, Words, run};
use std::alloc::{AllocError, Global};

/// How a run over the input ends, which puts what it writes at the front of the text.
pub fn ended(
    alloc: Global,
    words: &Words,
    input: &[u8],
    text: &mut [u8],
    count: &mut usize,
) -> Status
    requires { IsOffered (words_form words.now) }
    ensures run { IsRun words.now input.now result count.new text.old text.new }
    ensures within { count.new ≤ length text.old }
{
    *count = 0;
    let Ok(devices) = prepare(alloc, input, text.len()) else {
        return Status::Memory;
    };
    let Devices {
        mut source,
        mut out,
        mut err,
    } = devices;
    let report = run(alloc, words, &mut source, &mut out, &mut err);
    match put_front(text, written(report.status, &out, &err)) {
        Some(put) => {
            *count = put;
            report.status
        }
        None => Status::WriteFault,
    }
}

/// What a run wrote, on the sink that its status gives.
fn written<'a>(status: Status, out: &'a CleanSink, err: &'a CleanSink) -> &'a [u8]
    ensures { result.now ≡ written_with status out.now.held err.now.held }
{
    match status {
        Status::Done => out.bytes(),
        Status::Refused | Status::Usage | Status::Input => err.bytes(),
        Status::ReadFault | Status::WriteFault | Status::Memory => &[],
    }
}

/// What a run reads, and where it writes.
#[derive(Drop)]
struct Devices {
    source: CleanSource,
    out: CleanSink,
    err: CleanSink,
}

/// The input, and two empty sinks with so much room.
fn prepare(alloc: Global, input: &[u8], room: usize) -> Result<Devices, AllocError>
    ensures source { IfOk result (λ d. d.source ≡ input.now) }
    ensures out { IfOk result (λ d. d.out ≡ empty_shelf room) }
    ensures err { IfOk result (λ d. d.err ≡ empty_shelf room) }
{
    let input = List::from_vec(Vec::from_slice(alloc, input)?);
    Ok(Devices {
        source: CleanSource::new(input),
        out: empty_sink(alloc, room)?,
        err: empty_sink(alloc, room)?,
    })
}

fn empty_sink(alloc: Global, room: usize) -> Result<CleanSink, AllocError>
    ensures { IfOk result (λ sink. sink ≡ empty_shelf room) }
{
    let buffer = vec![in alloc; 0u8; room]?;
    Ok(CleanSink::new(List::from_vec(buffer)))
}
