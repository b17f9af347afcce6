//! Laws of what verifies and what is well formed. Their bodies do nothing but name the laws that they stand on.
ghost use Rattle.py_verifier_law.specs.Flawless.{CompiledIsFlawless};
ghost use Rattle.py_verifier_law.specs.Formed.{CompiledIsWellFormed};

use codegen::compiled_is_sealed;
use py_verify::laws::flawless_is_sound;

/// A code that a compile call answers has no verification error, so `verify` answers Yes, or that there is no memory.
pub fn compiled_is_flawless()
    ensures { CompiledIsFlawless }
{
    flawless_is_sound();
}

/// A code that a compile call answers is well formed, so `well_formed` answers None, or that there is no memory.
pub fn compiled_is_well_formed()
    ensures { CompiledIsWellFormed }
{
    compiled_is_sealed();
}
