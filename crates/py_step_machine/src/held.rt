//! What a machine holds beside its stack: blocks, and reasons of leaving them; and how instructions and runs end.

use py_answers::Halt;
use py_step_decode::Entry;
use std::alloc::{AllocError, AllocFailed};

/// Why blocks are left.
#[derive(Clone, Copy)]
pub enum Reason<'c> {
    Break(usize),
    Continue(usize),
    Return(Entry<'c>),
    /// The exception that the answer with this number raised.
    Raise(u32),
}

/// A block, with the height of the stack that it cuts to.
#[derive(Clone, Copy)]
pub enum Block<'c> {
    Loop {
        height: usize,
    },
    Except {
        height: usize,
        handler: usize,
    },
    Finally {
        height: usize,
        handler: usize,
    },
    /// Keeps the exception that was handled before.
    ExceptHandler {
        height: usize,
        old: Option<u32>,
    },
    /// Keeps the reason of a leaving, too, where one goes on after it.
    FinallyHandler {
        height: usize,
        reason: Option<Reason<'c>>,
        old: Option<u32>,
    },
}

/// Why an instruction does not go on.
#[derive(Clone, Copy)]
pub enum Stop<'c> {
    /// Blocks are left for a reason.
    Leaves(Reason<'c>),
    /// There was no answer left, or one that did not fit.
    Stopped,
    /// The code has a fault.
    Wrong,
    /// Cells were used as a value.
    Leaked,
    /// There is no memory for the run.
    OutOfMemory,
}

impl<'c> From<AllocError> for Stop<'c> {
    ghost use Rattle.std.specs.Prelude.{◌≡◌};
    ghost use Rattle.py_step_machine.specs.declared.held.Stop.TheVariants.{OutOfMemory};

    ghost from_gives = { λ _ e. e ≡ OutOfMemory };

    fn from(_e: AllocError) -> Stop<'c> {
        Stop::OutOfMemory
    }
}

impl<'c, T: Drop> From<AllocFailed<T>> for Stop<'c> {
    ghost use Rattle.std.specs.Prelude.{◌≡◌};
    ghost use Rattle.py_step_machine.specs.declared.held.Stop.TheVariants.{OutOfMemory};

    ghost from_gives = { λ _ e. e ≡ OutOfMemory };

    fn from(_e: AllocFailed<T>) -> Stop<'c> {
        Stop::OutOfMemory
    }
}

impl<'c> From<Halt> for Stop<'c> {
    ghost use Rattle.std.specs.Prelude.{◌≡◌};
    ghost use Rattle.py_step_machine.specs.Held.{stop_of};

    ghost from_gives = { λ h e. e ≡ stop_of h };

    fn from(halt: Halt) -> Stop<'c> {
        match halt {
            Halt::Raised(answer) => Stop::Leaves(Reason::Raise(answer)),
            Halt::Stopped => Stop::Stopped,
            Halt::OutOfMemory => Stop::OutOfMemory,
        }
    }
}

/// How a run ends.
#[derive(Clone, Copy)]
pub enum End<'c> {
    Returned(Entry<'c>),
    /// The exception that the answer with this number raised was not handled.
    Raised(u32),
    /// There was no answer left, or one that did not fit.
    Stopped,
    /// The code has a fault.
    Wrong,
    /// Cells were used as a value.
    Leaked,
    /// There is no memory for the run.
    OutOfMemory,
}

impl<'c> From<AllocError> for End<'c> {
    ghost use Rattle.std.specs.Prelude.{◌≡◌};
    ghost use Rattle.py_step_machine.specs.declared.held.End.TheVariants.{OutOfMemory};

    ghost from_gives = { λ _ e. e ≡ OutOfMemory };

    fn from(_e: AllocError) -> End<'c> {
        End::OutOfMemory
    }
}
