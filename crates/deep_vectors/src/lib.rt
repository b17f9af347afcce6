//! Trees that nest deeper than rows may. A crate of tests alone.
#![tactic(auto)]

#[cfg(test)]
mod deep;
