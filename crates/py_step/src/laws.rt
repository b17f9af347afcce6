//! The law of both runs. Its body does nothing.
ghost use Rattle.py_step.specs.Laws.{AgreementToldAlike};

/// A code that agrees with what a tree means is told, over each script, as the tree is.
pub fn agreement_told_alike()
    ensures { AgreementToldAlike }
{}
