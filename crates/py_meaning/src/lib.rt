//! What form each node of the tree is, and its faults: definitions alone.
#![tactic(auto)]
