//! The scopes of a program, and what each name is in them.
#![tactic(auto)]

mod builder;
mod checks;
mod declarations;
mod error;
mod flags;
mod flat;
mod globals;
mod kinds;
mod laws;
mod lifts;
mod marks;
mod outward;
pub mod refusal;
mod resolution;
mod roles;
mod rows;
mod stack;
mod steps;
mod symbols;
mod table;
mod table_type;
mod tables;

pub use builder::ScopeBuilder;
pub use error::{ScanFault, SymbolTableError};
pub use flags::SymbolFlags;
pub use flat::{FlatScopes, ScopeEntry};
pub use kinds::SymbolScope;
pub use laws::{worked_answers, worked_programs};
pub use py_base::mangle_name;
pub use roles::Role;
pub use stack::StackStack;
pub use steps::Steps;
pub use symbols::{Symbol, Symbols};
pub use table::SymbolTable;
pub use table_type::SymbolTableType;
