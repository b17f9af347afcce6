//! What a run has listed, and the answers that are left to it.
ghost use Rattle.std.specs.Prelude.{◌≡◌, ◌<◌, ◌+◌, ◌^◌, true, length};
ghost use Rattle.py_answers.specs.Told.{all_told};

use crate::answers::Answer;
use crate::trace::Event;
use py_base::Text;
use py_bytecode::Instruction;
use std::alloc::Global;

/// What an operation has beside its values.
#[derive(Clone, Copy)]
pub enum Operand<'n> {
    Bare,
    Number(u32),
    Named(&'n Text),
}

/// An operation.
#[derive(Clone, Copy)]
pub struct Operation<'n> {
    pub op: Instruction,
    pub operand: Operand<'n>,
}

/// Why a part of a run gives nothing.
#[derive(Clone, Copy, PartialEq, Eq, Debug)]
pub enum Halt {
    /// The answer with this number, from 0, raised its exception.
    Raised(u32),
    /// There was no answer left, or one that did not fit.
    Stopped,
    /// There is no memory for what the run lists.
    OutOfMemory,
}

/// The events of a run so far, and the answers that are left to it.
#[derive(Drop)]
pub struct Log<'a> {
    pub alloc: Global,
    pub events: Vec<Event>,
    pub answers: &'a [Answer],
    /// How many answers were taken.
    pub taken: u32,
    pub ghost room: { taken + length answers.now < 2 ^ 16 },
    pub ghost told: { all_told events.items ≡ true },
}
