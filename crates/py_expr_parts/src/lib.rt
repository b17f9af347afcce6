//! What expressions are emitted of beside other expressions: instructions, constants, names, runs of elements, and refusals.
#![tactic(auto)]

pub mod calls;
pub mod comparisons;
pub mod conditions;
pub mod displays;
pub mod elements;
pub mod expressions;
pub mod keywords;
pub mod returns;
pub mod targets;
pub mod texts;
pub mod yields;
