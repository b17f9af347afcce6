//! Forms, what they mean and what their code is: definitions alone.
#![tactic(auto)]
