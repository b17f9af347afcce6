//! The instructions, with what the table of them says of each.
ghost use Rattle.std.specs.Prelude.{◌≡◌, ◌<◌, pos};
ghost use Rattle.py_bytecode.specs.Table.{row_of, is_label, effect_of, bits_of, raise_of, InKind};

use crate::OpArg;

/// An instruction of the stack machine, without its operand. What it does is defined in `specs/Decode.antt` and
/// `specs/Machine.antt`; `operand_kind`, `stack_effect` and `unconditional_branch` give its row of the table.
#[derive(Clone, Copy, PartialEq, Eq, Hash, Debug)]
pub enum Instruction {
    ImportName,
    ImportNameless,
    ImportStar,
    ImportFrom,
    LoadFast,
    LoadNameAny,
    LoadGlobal,
    LoadDeref,
    LoadClassDeref,
    LoadClosure,
    StoreFast,
    StoreLocal,
    StoreGlobal,
    StoreDeref,
    DeleteFast,
    DeleteLocal,
    DeleteGlobal,
    DeleteDeref,
    Subscript,
    StoreSubscript,
    DeleteSubscript,
    LoadAttr,
    StoreAttr,
    DeleteAttr,
    LoadMethod,
    LoadConst,
    ReturnConst,
    UnaryOperation,
    BinaryOperation,
    BinaryOperationInplace,
    CompareOperation,
    TestOperation,
    Pop,
    Rotate2,
    Rotate3,
    Duplicate,
    Duplicate2,
    GetIter,
    CallFunctionPositional,
    CallFunctionKeyword,
    CallFunctionEx,
    CallMethodPositional,
    CallMethodKeyword,
    CallMethodEx,
    BuildString,
    BuildTuple,
    BuildList,
    BuildSet,
    BuildTupleUnpack,
    BuildListUnpack,
    BuildSetUnpack,
    BuildMapForCall,
    BuildMap,
    DictUpdate,
    BuildSlice,
    ListAppend,
    SetAdd,
    MapAdd,
    PrintExpr,
    LoadBuildClass,
    UnpackSequence,
    UnpackEx,
    FormatValue,
    MakeFunction,
    YieldValue,
    YieldFrom,
    SetupAnnotation,
    TypeAlias,
    Nop,
    SetupLoop,
    PopBlock,
    PopException,
    EnterFinally,
    EndFinally,
    WithCleanupStart,
    WithCleanupFinish,
    Raise,
    ReturnValue,
    ExtendedArg,
    JumpIfTrue,
    JumpIfFalse,
    JumpIfTrueOrPop,
    JumpIfFalseOrPop,
    ForIter,
    Jump,
    Break,
    Continue,
    SetupExcept,
    SetupFinally,
    SetupWith,
    TypeVar,
    TypeVarWithBound,
}

/// What an operand is: a place in a table of the code, the start of a block, a number, or the number of an
/// enumerated case.
#[derive(Clone, Copy, PartialEq, Eq, Debug)]
pub enum OperandKind {
    /// No operand; the unit's byte is 0.
    None,
    /// A place among the constants.
    Const,
    /// A place among the names.
    Name,
    /// A place among the local variables.
    Var,
    /// A place among the cells and then the free names.
    Cell,
    /// The place of a unit.
    Label,
    /// A number below 2^30.
    Count,
    /// A set of `MakeFunctionFlags`.
    Flags,
    /// Two bytes, as `UnpackExArgs` says.
    Pair,
    /// 0 or 1.
    Bit,
    /// Plus, Minus, Not or Invert, numbered from 0, as the cases of each kind below.
    Unary,
    /// Add, Subtract, Multiply, MatrixMultiply, Divide, FloorDivide, Modulo, Power, Lshift, Rshift, Or, Xor or And.
    Binary,
    /// Less, Greater, NotEqual, Equal, LessOrEqual or GreaterOrEqual.
    Compare,
    /// In, NotIn, Is, IsNot or ExceptionMatch.
    Test,
    /// Raise, RaiseCause or Reraise.
    RaiseKind,
    /// None, Str, Ascii or Repr.
    Conversion,
}

// One row for each instruction: its operand, its effect on the height of the stack where the next instruction
// follows and where it jumps, and whether the next instruction may follow.
macro_rules! instruction_table {
    ($column:ident($($args:tt)*)) => {
        instruction_column! { $column($($args)*) n;
            ImportName: Name, (-1), (-1), goes_on;
            ImportNameless: None, (-1), (-1), goes_on;
            ImportStar: None, (-1), (-1), goes_on;
            ImportFrom: Name, (1), (1), goes_on;
            LoadFast: Var, (1), (1), goes_on;
            LoadNameAny: Name, (1), (1), goes_on;
            LoadGlobal: Name, (1), (1), goes_on;
            LoadDeref: Cell, (1), (1), goes_on;
            LoadClassDeref: Cell, (1), (1), goes_on;
            LoadClosure: Cell, (1), (1), goes_on;
            StoreFast: Var, (-1), (-1), goes_on;
            StoreLocal: Name, (-1), (-1), goes_on;
            StoreGlobal: Name, (-1), (-1), goes_on;
            StoreDeref: Cell, (-1), (-1), goes_on;
            DeleteFast: Var, (0), (0), goes_on;
            DeleteLocal: Name, (0), (0), goes_on;
            DeleteGlobal: Name, (0), (0), goes_on;
            DeleteDeref: Cell, (0), (0), goes_on;
            Subscript: None, (-1), (-1), goes_on;
            StoreSubscript: None, (-3), (-3), goes_on;
            DeleteSubscript: None, (-2), (-2), goes_on;
            LoadAttr: Name, (0), (0), goes_on;
            StoreAttr: Name, (-2), (-2), goes_on;
            DeleteAttr: Name, (-1), (-1), goes_on;
            LoadMethod: Name, (2), (2), goes_on;
            LoadConst: Const, (1), (1), goes_on;
            ReturnConst: Const, (0), (0), leaves;
            UnaryOperation: Unary, (0), (0), goes_on;
            BinaryOperation: Binary, (-1), (-1), goes_on;
            BinaryOperationInplace: Binary, (-1), (-1), goes_on;
            CompareOperation: Compare, (-1), (-1), goes_on;
            TestOperation: Test, (-1), (-1), goes_on;
            Pop: None, (-1), (-1), goes_on;
            Rotate2: None, (0), (0), goes_on;
            Rotate3: None, (0), (0), goes_on;
            Duplicate: None, (1), (1), goes_on;
            Duplicate2: None, (2), (2), goes_on;
            GetIter: None, (0), (0), goes_on;
            CallFunctionPositional: Count, (-(n as i32)), (-(n as i32)), goes_on;
            CallFunctionKeyword: Count, (-(n as i32) - 1), (-(n as i32) - 1), goes_on;
            CallFunctionEx: Bit, (-1 - (n as i32)), (-1 - (n as i32)), goes_on;
            CallMethodPositional: Count, (-(n as i32) - 2), (-(n as i32) - 2), goes_on;
            CallMethodKeyword: Count, (-(n as i32) - 3), (-(n as i32) - 3), goes_on;
            CallMethodEx: Bit, (-3 - (n as i32)), (-3 - (n as i32)), goes_on;
            BuildString: Count, (1 - (n as i32)), (1 - (n as i32)), goes_on;
            BuildTuple: Count, (1 - (n as i32)), (1 - (n as i32)), goes_on;
            BuildList: Count, (1 - (n as i32)), (1 - (n as i32)), goes_on;
            BuildSet: Count, (1 - (n as i32)), (1 - (n as i32)), goes_on;
            BuildTupleUnpack: Count, (1 - (n as i32)), (1 - (n as i32)), goes_on;
            BuildListUnpack: Count, (1 - (n as i32)), (1 - (n as i32)), goes_on;
            BuildSetUnpack: Count, (1 - (n as i32)), (1 - (n as i32)), goes_on;
            BuildMapForCall: Count, (1 - (n as i32)), (1 - (n as i32)), goes_on;
            BuildMap: Count, (1 - 2 * (n as i32)), (1 - 2 * (n as i32)), goes_on;
            DictUpdate: None, (-1), (-1), goes_on;
            BuildSlice: Bit, (-1 - (n as i32)), (-1 - (n as i32)), goes_on;
            ListAppend: Count, (-1), (-1), goes_on;
            SetAdd: Count, (-1), (-1), goes_on;
            MapAdd: Count, (-2), (-2), goes_on;
            PrintExpr: None, (-1), (-1), goes_on;
            LoadBuildClass: None, (1), (1), goes_on;
            UnpackSequence: Count, ((n as i32) - 1), ((n as i32) - 1), goes_on;
            UnpackEx: Pair, ((n % 256 + n / 256) as i32), ((n % 256 + n / 256) as i32), goes_on;
            FormatValue: Conversion, (-1), (-1), goes_on;
            MakeFunction: Flags, (-1 - bits(n)), (-1 - bits(n)), goes_on;
            YieldValue: None, (0), (0), goes_on;
            YieldFrom: None, (-1), (-1), goes_on;
            SetupAnnotation: None, (0), (0), goes_on;
            TypeAlias: None, (-2), (-2), goes_on;
            Nop: None, (0), (0), goes_on;
            SetupLoop: None, (0), (0), goes_on;
            PopBlock: None, (0), (0), goes_on;
            PopException: None, (0), (0), goes_on;
            EnterFinally: None, (0), (0), goes_on;
            EndFinally: None, (0), (0), goes_on;
            WithCleanupStart: None, (0), (0), goes_on;
            WithCleanupFinish: None, (-1), (-1), goes_on;
            Raise: RaiseKind, (raise(n)), (raise(n)), leaves;
            ReturnValue: None, (-1), (-1), leaves;
            ExtendedArg: Count, (0), (0), goes_on;
            JumpIfTrue: Label, (-1), (-1), goes_on;
            JumpIfFalse: Label, (-1), (-1), goes_on;
            JumpIfTrueOrPop: Label, (-1), (0), goes_on;
            JumpIfFalseOrPop: Label, (-1), (0), goes_on;
            ForIter: Label, (1), (-1), goes_on;
            Jump: Label, (0), (0), leaves;
            Break: Label, (0), (0), leaves;
            Continue: Label, (0), (0), leaves;
            SetupExcept: Label, (0), (1), goes_on;
            SetupFinally: Label, (0), (0), goes_on;
            SetupWith: Label, (1), (0), goes_on;
            TypeVar: None, (0), (0), goes_on;
            TypeVarWithBound: None, (-1), (-1), goes_on;
        }
    };
}

macro_rules! instruction_column {
    (operand_kind($x:expr) $n:ident; $($name:ident: $kind:ident, $effect:tt, $jump:tt, $after:ident;)*) => {
        match $x {
            $(Instruction::$name => OperandKind::$kind,)*
        }
    };
    (name($x:expr) $n:ident; $($name:ident: $kind:ident, $effect:tt, $jump:tt, $after:ident;)*) => {
        match $x {
            $(Instruction::$name => stringify!($name),)*
        }
    };
    (unconditional($x:expr) $n:ident; $($name:ident: $kind:ident, $effect:tt, $jump:tt, $after:ident;)*) => {
        match $x {
            $(Instruction::$name => is_leaving!($after),)*
        }
    };
    (stack_effect($x:expr, $arg:expr, $jumps:expr) $n:ident; $($name:ident: $kind:ident, $effect:tt, $jump:tt, $after:ident;)*) => {{
        let $n = $arg;
        if $jumps {
            match $x {
                $(Instruction::$name => $jump,)*
            }
        } else {
            match $x {
                $(Instruction::$name => $effect,)*
            }
        }
    }};
}

macro_rules! is_leaving {
    (leaves) => {
        true
    };
    (goes_on) => {
        false
    };
}

impl Instruction {
    /// What the operand is.
    pub fn operand_kind(&self) -> OperandKind
        ensures { result ≡ (row_of self.now).kind }
    {
        instruction_table!(operand_kind(self))
    }

    /// Whether the operand is the place of an instruction.
    pub fn has_target(&self) -> bool
        ensures { result ≡ is_label (row_of self.now).kind }
    {
        matches!(self.operand_kind(), OperandKind::Label)
    }

    /// Whether the next instruction never follows.
    pub fn unconditional_branch(&self) -> bool
        ensures { result ≡ (row_of self.now).leaves }
    {
        instruction_table!(unconditional(self))
    }

    /// The name, as listings show it.
    pub fn name(&self) -> &'static str
        ensures { result.now ≡ (row_of self.now).name }
    {
        instruction_table!(name(self))
    }

    /// The change of the value stack's height, where the next instruction follows or, with `jump`, where this one
    /// jumps. The caller keeps the operand in its kind's range where the kind counts or enumerates.
    pub fn stack_effect(&self, arg: OpArg, jump: bool) -> i32
        requires { InKind (row_of self.now).kind arg.0 }
        ensures { result ≡ effect_of (row_of self.now) arg.0 jump }
    {
        instruction_table!(stack_effect(self, arg.0, jump))
    }
}

/// How many of the five lowest bits are set.
fn bits(n: u32) -> i32
    requires { n < 32 }
    ensures { result ≡ pos (bits_of n) }
{
    (n % 2 + n / 2 % 2 + n / 4 % 2 + n / 8 % 2 + n / 16) as i32
}

/// The effect of a raise of each kind.
fn raise(n: u32) -> i32
    ensures { result ≡ raise_of n }
{
    match n {
        0 => -1,
        1 => -2,
        _ => 0,
    }
}
