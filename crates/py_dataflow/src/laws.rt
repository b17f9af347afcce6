//! Laws of sound code objects. The bodies do nothing.

ghost use Rattle.py_dataflow.specs.Sound.{LimitIsNoMatter, NeverWrong};

/// No run of a sound code object is Wrong, whatever the answers.
pub fn sound_is_never_wrong()
    ensures { NeverWrong }
{}

/// The limit of height changes no run of a sound code object.
pub fn limit_is_no_matter()
    ensures { LimitIsNoMatter }
{}
