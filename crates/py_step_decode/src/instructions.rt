//! Instructions, with what their operands name. Nothing is kept of children and of cells.
use py_answers::Operation;
use py_base::Text;
use py_bytecode::ConstantData;

/// A value of a run.
#[derive(Clone, Copy)]
pub enum Value<'c> {
    Constant(&'c ConstantData),
    Given { answer: u32, index: u32 },
    Child,
}

/// What lies on the stack.
#[derive(Clone, Copy)]
pub enum Entry<'c> {
    It(Value<'c>),
    Cells,
}

/// An instruction, with what its operand names.
#[derive(Clone, Copy)]
pub enum Instr<'c> {
    Push(Entry<'c>),
    Load(&'c Text),
    /// A silent store is that of cells to `__classcell__`.
    Store {
        name: &'c Text,
        silent: bool,
    },
    Delete(&'c Text),
    /// An operation on so many values that gives so many, or, with None, only raises.
    Operate {
        operation: Operation<'c>,
        takes: u32,
        gives: Option<u32>,
    },
    MakeFunction {
        flags: u32,
        closure: bool,
        others: u32,
    },
    Import(Operation<'c>),
    Append {
        operation: Operation<'c>,
        others: u32,
        depth: u32,
    },
    Unpack {
        operation: Operation<'c>,
        count: u32,
    },
    Nop,
    Pop,
    Rotate2,
    Rotate3,
    Duplicate,
    Duplicate2,
    JumpIf {
        truth: bool,
        target: usize,
    },
    JumpIfOrPop {
        truth: bool,
        target: usize,
    },
    Jump(usize),
    SetupLoop,
    PopBlock,
    Break(usize),
    Continue(usize),
    ReturnValue,
    ReturnConst(Value<'c>),
    SetupExcept(usize),
    SetupFinally(usize),
    PopException,
    EnterFinally,
    EndFinally,
    Reraise,
    ForIter(usize),
    SetupWith(usize),
    WithCleanupStart,
    WithCleanupFinish,
}
