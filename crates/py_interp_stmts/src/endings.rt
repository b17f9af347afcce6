//! How a part of a body has ended, after which something else is done.
ghost use Rattle.std.specs.Prelude.{◌≡◌};
ghost use Rattle.py_interp_stmts.specs.Over.{in_hand_of, is_over};

use py_answers::Halt;
use py_interp_simple::Flow;

/// Whether the run is over: nothing more is done.
pub(crate) fn is_over(ended: &Result<Flow, Halt>) -> bool
    ensures { result ≡ is_over ended.now }
{
    match ended {
        Ok(_) => false,
        Err(Halt::Raised(_)) => false,
        Err(Halt::Stopped) => true,
        Err(Halt::OutOfMemory) => true,
    }
}

/// The exception that is handled while this ending is in hand, where one was handled before or not.
pub(crate) fn in_hand(ended: &Result<Flow, Halt>, slot: Option<u32>) -> Option<u32>
    ensures { result ≡ in_hand_of ended.now slot }
{
    match ended {
        Ok(_) => slot,
        Err(Halt::Raised(exception)) => Some(*exception),
        Err(Halt::Stopped) => slot,
        Err(Halt::OutOfMemory) => slot,
    }
}
