//! The format of rows, as definitions: which tree the rows are that bytes hold, or what is wrong with them first.
#![tactic(auto)]
