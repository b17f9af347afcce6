//! Code objects, their constants and their units.
use crate::{CodeFlags, CodeUnit};
use py_base::{List, OneIndexed, SourceLocation, Text};

/// A constant of a code object. Two are equal where the same stands in them, to any depth, and equal ones hash alike.
#[derive(PartialEq, Eq, Hash, Drop)]
#[cycle(constant)]
pub enum ConstantData {
    None,
    Boolean { value: bool },
    Str { value: Text },
    Bytes { value: List<u8> },
    Integer { value: i128 },
    Tuple { elements: List<ConstantData> },
    Ellipsis,
    /// The code of a scope, which `MakeFunction` makes a function of.
    Code { code: Box<CodeObject> },
}

/// What the compiler makes of one scope. The fields are those that a machine reads: the units with a location for
/// each, the tables that operands name, and how high the value stack may grow.
#[derive(PartialEq, Eq, Hash, Drop)]
#[cycle(constant)]
pub struct CodeObject {
    /// What holds of the whole code.
    pub flags: CodeFlags,
    /// How many parameters are positional-only.
    pub posonlyarg_count: u32,
    /// How many parameters are positional, the positional-only ones among them.
    pub arg_count: u32,
    /// How many parameters are keyword-only.
    pub kwonlyarg_count: u32,
    /// The path of the source, as it was given.
    pub source_path: Text,
    /// The row in which the scope begins, from 1.
    pub first_line_number: Option<OneIndexed>,
    /// The name of the scope, as `<module>` or `f`.
    pub obj_name: Text,
    /// The most values that may lie on the value stack; a run that needs more is wrong.
    pub max_stackdepth: u32,
    /// The units. An operand's higher bytes stand in `ExtendedArg` units before its instruction, the highest first.
    pub instructions: List<CodeUnit>,
    /// For each unit, where in the source it comes from.
    pub locations: List<SourceLocation>,
    /// The table that `Const` operands name.
    pub constants: List<ConstantData>,
    /// The table that `Name` operands name: attributes, imports, global names and names of class bodies and modules.
    pub names: List<Text>,
    /// The table that `Var` operands name: local variables, the parameters first.
    pub varnames: List<Text>,
    /// The local variables that inner scopes use. `Cell` operands name these, and after them `freevars`.
    pub cellvars: List<Text>,
    /// The variables of enclosing scopes that this one uses.
    pub freevars: List<Text>,
    /// For each of `cellvars` the place of the parameter that it is, or -1; None where none is a parameter.
    pub cell2arg: Option<List<i32>>,
}
