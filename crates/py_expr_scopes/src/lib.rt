//! What expressions need for scopes of their own: parameters, the scopes of lambdas and comprehensions, and clauses.
#![tactic(auto)]

pub mod awaits;
pub mod clauses;
pub mod comprehensions;
pub mod functions;
mod parameters;
