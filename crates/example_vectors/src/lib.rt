//! The calls of examples, each made once. A crate of tests alone.
#![tactic(auto)]

#[cfg(test)]
mod tests;
