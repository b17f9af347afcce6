//! The law of emissions: its body does nothing but name the law that it stands on.
ghost use Rattle.py_emission_outcomes.specs.Fitting.{TreesFit};

use py_scope_proof::uses_are_few;

/// The emission of a tree without faults is done: no operand is too large for an instruction, and no cell is missing where a
/// function is made. Its tables of names and constants are shorter than 2 ^ 30, its blocks are fewer, and its scopes have numbers
/// below that. Its code object and each nested code object, at every depth, has tables of names, cells and constants that are
/// shorter than 2 ^ 30, and fewer parameters than that.
pub fn trees_fit()
    ensures { TreesFit }
{
    uses_are_few();
}
