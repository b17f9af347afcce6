//! How the public calls are used: proved callers.
#![tactic(auto)]

mod blocks;
mod compile;
mod files;
mod runs;
mod scopes;
mod scripts;

pub use blocks::laid_out;
pub use compile::code_of_file;
pub use files::{may_run, safe_code};
pub use runs::{Ended, run_in_memory};
pub use scopes::has_right_scopes;
pub use scripts::text_of_runs;
