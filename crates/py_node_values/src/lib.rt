//! Values that are read off a node of the tree: constants, texts, the numbers of operators, the segments of a path, and
//! whether something is annotated. Nothing here emits anything, and no name is followed.
#![tactic(auto)]

pub mod annotations;
pub mod constants;
pub mod operators;
pub mod paths;
pub mod texts;
