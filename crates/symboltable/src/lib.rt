//! Symbol tables, as users of the compiler see them: the calls that give them, their types, and their errors as those of
//! the compile calls. The scans are functions, and calls of the table that they answer too.
#![tactic(auto)]

mod errors;
mod scans;

pub use errors::{IntoCodegenError, into_codegen_error};
pub use py_scope::{
    ScanFault, StackStack, Symbol, SymbolFlags, SymbolScope, SymbolTable, SymbolTableError,
    SymbolTableType, Symbols, mangle_name,
};
pub use py_symbol_tables::{scan_body, scan_expr, scan_program, scan_value};
pub use scans::Scan;
