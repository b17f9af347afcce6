//! Why a tree is refused.

pub use py_base::{CodegenError, CodegenErrorType};
