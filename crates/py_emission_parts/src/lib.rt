//! What is emitted, as steps on a state, and the code object of what is emitted. No function stands here.
#![tactic(auto)]
