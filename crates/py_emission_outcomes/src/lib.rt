//! That what is emitted for a tree ends as its faults say, and leaves off where its parts do: lemmas alone.
//! How deep codes and tuples nest among the constants of what is emitted for a tree: lemmas alone.
//! The emission of a tree without faults is done: a law, and no function of the program.
#![tactic(auto)]

mod laws;

pub use laws::trees_fit;
