//! What is emitted of expressions and statements: definitions alone.
#![tactic(auto)]
