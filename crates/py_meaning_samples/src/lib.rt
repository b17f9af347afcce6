//! Worked samples of what trees mean, of what is emitted of them and of their faults. No function stands here.
#![tactic(auto)]
