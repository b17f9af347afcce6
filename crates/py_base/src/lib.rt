//! The small types that every crate stands on: texts, lists, places in the source, operators, errors.
#![tactic(auto)]

pub mod errors;
pub mod limits;
pub mod list;
pub mod location;
pub mod mangle;
pub mod operators;
pub mod shapes;
pub mod text;

pub use errors::{CodegenError, CodegenErrorType};
pub use limits::{NESTING_LIMIT, SIZE_LIMIT, TreeLimit};
pub use list::List;
pub use location::{LocatedError, OneIndexed, SourceLocation};
pub use mangle::{mangle_name, same_mangled};
pub use operators::{BoolOp, CmpOp, ConversionFlag, Operator, UnaryOp};
pub use shapes::Malformed;
pub use text::Text;

/// Names in order.
pub type Names = List<Text>;
