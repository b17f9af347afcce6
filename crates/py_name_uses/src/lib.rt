//! What a scan of a program notes: the scopes that it enters and leaves, and the uses of names in them.
#![tactic(auto)]

pub mod names;
pub mod parameters;
pub mod scan;
pub mod type_names;
pub mod type_params;
pub mod usage;

pub use scan::Scan;
pub use type_names::TypeNames;
pub use usage::Usage;
