//! Both runs over a script of answers: that of a code object on the machine, and that of the tree by what it means.
#![tactic(auto)]

mod laws;
mod report;
mod run;

pub use laws::agreement_told_alike;
pub use py_answers::{Answer, Detail, Event, Outcome, Script, StepValue, Trace, push_trace};
pub use run::{StepReport, run_script};
