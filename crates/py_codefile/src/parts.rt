//! The parts of a code as they are read.
use py_base::{List, OneIndexed, Text};
use py_bytecode::CodeFlags;

/// What a file says of a code before its units: the fields of the same names of `CodeObject`, in the order of the file.
#[derive(Drop)]
pub struct Heading {
    pub flags: CodeFlags,
    pub posonlyarg_count: u32,
    pub arg_count: u32,
    pub kwonlyarg_count: u32,
    pub source_path: Text,
    pub first_line_number: Option<OneIndexed>,
    pub obj_name: Text,
    pub max_stackdepth: u32,
}

/// What a file says of a code after its constants: the fields of the same names of `CodeObject`, in the order of the
/// file.
#[derive(Drop)]
pub struct Tables {
    pub names: List<Text>,
    pub varnames: List<Text>,
    pub cellvars: List<Text>,
    pub freevars: List<Text>,
    pub cell2arg: Option<List<i32>>,
}
