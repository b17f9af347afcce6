//! What each instruction does to the height of the stack and to the blocks, in numbers: the values it takes, looks at and
//! gives, whether it goes on to the next one or jumps, and the block it needs, opens or closes.
ghost use Rattle.std.specs.Prelude.{◌≡◌, ◌<◌, ◌^◌, ◌*◌};
ghost use Rattle.py_dataflow.specs.Flow.{closes, flow_at, goes_on, jumps, jumps_away, leaves, made_of, raised_of, opening, opens_block, values_at};

use py_bytecode::{Instruction, OpArg};

/// A kind of block. `With` is a `Finally` block whose handler ends a `with`.
#[derive(Clone, Copy, PartialEq, Eq, Debug)]
pub enum Kind {
    Loop,
    Except,
    Finally,
    With,
    ExceptHandler,
    FinallyHandler,
}

/// A block: its kind, its height, and whether it comes from a `finally` statement or from a `with`.
/// A handler that was entered by hand comes from neither.
#[derive(Clone, Copy, PartialEq, Eq, Debug)]
pub struct Mark {
    pub kind: Kind,
    pub height: u32,
    pub plain: bool,
    pub exit: bool,
}

/// The block that an instruction needs: the innermost one of some kind, or a loop among the blocks.
#[derive(Clone, Copy)]
pub enum NeededBlock {
    Nothing,
    Entered,
    ExceptHandler,
    FinallyHandler,
    NotExit,
    NotPlain,
    Loop,
}

/// A block that an instruction opens, at the height before it.
#[derive(Clone, Copy)]
pub struct Opening {
    pub kind: Kind,
    pub plain: bool,
    pub exit: bool,
}

/// What a jump takes, gives and opens, or how it leaves the innermost loop.
#[derive(Clone, Copy)]
pub enum Branch {
    Goes {
        takes: u64,
        gives: u64,
        opens: Option<Opening>,
    },
    Breaks,
    Continues,
}

/// How an instruction changes the height of the stack and the blocks.
#[derive(Clone, Copy)]
pub struct Flow {
    /// The values taken from the stack where the next instruction follows.
    pub takes: u64,
    /// The values below those that are looked at in place.
    pub looks_at: u64,
    /// The values given where the next instruction follows.
    pub gives: u64,
    /// Whether the next instruction may follow.
    pub falls: bool,
    pub needs: NeededBlock,
    /// Whether the innermost block is closed.
    pub pops: bool,
    /// The block that is opened where the next instruction follows.
    pub opens: Option<Opening>,
    /// What happens where it jumps, if it is a jump.
    pub branch: Branch,
}

const STRAIGHT: Branch = Branch::Goes {
    takes: 0,
    gives: 0,
    opens: None,
};

impl Opening {
    fn of(kind: Kind) -> Opening
        ensures { result ≡ opening kind }
    {
        Opening {
            kind,
            plain: false,
            exit: false,
        }
    }
}

impl Flow {
    fn goes_on(takes: u64, looks_at: u64, gives: u64) -> Flow
        ensures { result ≡ goes_on takes looks_at gives }
    {
        Flow::jumps(takes, looks_at, gives, STRAIGHT)
    }

    fn jumps(takes: u64, looks_at: u64, gives: u64, branch: Branch) -> Flow
        ensures { result ≡ jumps takes looks_at gives branch }
    {
        Flow {
            takes,
            looks_at,
            gives,
            falls: true,
            needs: NeededBlock::Nothing,
            pops: false,
            opens: None,
            branch,
        }
    }

    fn leaves(takes: u64) -> Flow
        ensures { result ≡ leaves takes }
    {
        Flow {
            falls: false,
            ..Flow::goes_on(takes, 0, 0)
        }
    }

    fn jumps_away(needs: NeededBlock, branch: Branch) -> Flow
        ensures { result ≡ jumps_away needs branch }
    {
        Flow {
            falls: false,
            needs,
            ..Flow::jumps(0, 0, 0, branch)
        }
    }

    fn opens_block(takes: u64, gives: u64, kind: Kind, branch: Branch) -> Flow
        ensures { result ≡ opens_block takes gives kind branch }
    {
        Flow {
            opens: Some(Opening::of(kind)),
            ..Flow::jumps(takes, 0, gives, branch)
        }
    }

    fn closes(needs: NeededBlock, takes: u64) -> Flow
        ensures { result ≡ closes needs takes }
    {
        Flow {
            needs,
            pops: true,
            ..Flow::goes_on(takes, 0, 0)
        }
    }

    /// The flow of an instruction with this operand.
    pub fn of(instr: Instruction, arg: OpArg) -> Flow
        ensures { result ≡ flow_at instr arg.0 }
    {
        let n = u64::from(arg.0);
        match instr {
            Instruction::JumpIfTrue | Instruction::JumpIfFalse => {
                Flow::jumps(1, 0, 0, goes(1, 0, None))
            }
            Instruction::JumpIfTrueOrPop | Instruction::JumpIfFalseOrPop => {
                Flow::jumps(1, 0, 0, goes(1, 1, None))
            }
            Instruction::ForIter => Flow::jumps(0, 1, 1, goes(1, 0, None)),
            Instruction::Jump => Flow::jumps_away(NeededBlock::Nothing, STRAIGHT),
            Instruction::Break => Flow::jumps_away(NeededBlock::Loop, Branch::Breaks),
            Instruction::Continue => Flow::jumps_away(NeededBlock::Loop, Branch::Continues),
            Instruction::Raise => Flow::leaves(raised(n)),
            Instruction::ReturnValue => Flow::leaves(1),
            Instruction::ReturnConst => Flow::leaves(0),
            Instruction::SetupLoop => Flow::opens_block(0, 0, Kind::Loop, STRAIGHT),
            Instruction::EnterFinally => Flow::opens_block(0, 0, Kind::FinallyHandler, STRAIGHT),
            Instruction::SetupExcept => {
                Flow::opens_block(
                    0,
                    0,
                    Kind::Except,
                    goes(0, 1, Some(Opening::of(Kind::ExceptHandler))),
                )
            }
            Instruction::SetupFinally => Flow::opens_block(
                0,
                0,
                Kind::Finally,
                goes(
                    0,
                    0,
                    Some(Opening {
                        kind: Kind::FinallyHandler,
                        plain: true,
                        exit: false,
                    }),
                ),
            ),
            Instruction::SetupWith => Flow::opens_block(
                1,
                2,
                Kind::With,
                goes(
                    1,
                    1,
                    Some(Opening {
                        kind: Kind::FinallyHandler,
                        plain: false,
                        exit: true,
                    }),
                ),
            ),
            Instruction::PopBlock => Flow::closes(NeededBlock::Entered, 0),
            Instruction::PopException => Flow::closes(NeededBlock::ExceptHandler, 0),
            Instruction::EndFinally => Flow::closes(NeededBlock::NotExit, 0),
            Instruction::WithCleanupFinish => Flow::closes(NeededBlock::NotPlain, 1),
            Instruction::WithCleanupStart => Flow {
                needs: NeededBlock::FinallyHandler,
                ..Flow::goes_on(0, 1, 0)
            },
            _ => values(instr, n),
        }
    }
}

/// A jump that goes to its target.
fn goes(takes: u64, gives: u64, opens: Option<Opening>) -> Branch
    ensures { result ≡ Branch.Goes takes gives opens }
{
    Branch::Goes {
        takes,
        gives,
        opens,
    }
}

/// How many values a raise of each kind takes.
fn raised(n: u64) -> u64
    ensures { result ≡ raised_of n }
{
    match n {
        0 => 1,
        1 => 2,
        _ => 0,
    }
}

/// How many values a function is made of: its code and name, and one for each flag.
fn made(n: u64) -> u64
    requires { n < 2 ^ 32 }
    ensures { result ≡ made_of n }
{
    2 + n % 2 + n / 2 % 2 + n / 4 % 2 + n / 8 % 2 + n / 16
}

/// The flow of an instruction without jump and block.
fn values(instr: Instruction, n: u64) -> Flow
    requires { n < 2 ^ 32 }
    ensures { result ≡ values_at instr n }
{
    match instr {
        Instruction::ImportName
        | Instruction::ImportNameless
        | Instruction::Subscript
        | Instruction::BinaryOperation
        | Instruction::BinaryOperationInplace
        | Instruction::CompareOperation
        | Instruction::TestOperation
        | Instruction::DictUpdate
        | Instruction::FormatValue
        | Instruction::YieldFrom
        | Instruction::TypeVarWithBound => Flow::goes_on(2, 0, 1),
        Instruction::ImportStar
        | Instruction::StoreFast
        | Instruction::StoreLocal
        | Instruction::StoreGlobal
        | Instruction::StoreDeref
        | Instruction::DeleteAttr
        | Instruction::Pop
        | Instruction::PrintExpr => Flow::goes_on(1, 0, 0),
        Instruction::ImportFrom => Flow::goes_on(0, 1, 1),
        Instruction::LoadFast
        | Instruction::LoadNameAny
        | Instruction::LoadGlobal
        | Instruction::LoadDeref
        | Instruction::LoadClassDeref
        | Instruction::LoadClosure
        | Instruction::LoadConst
        | Instruction::LoadBuildClass => Flow::goes_on(0, 0, 1),
        Instruction::StoreSubscript => Flow::goes_on(3, 0, 0),
        Instruction::DeleteSubscript | Instruction::StoreAttr => Flow::goes_on(2, 0, 0),
        Instruction::LoadAttr
        | Instruction::UnaryOperation
        | Instruction::GetIter
        | Instruction::YieldValue
        | Instruction::TypeVar => Flow::goes_on(1, 0, 1),
        Instruction::LoadMethod => Flow::goes_on(1, 0, 3),
        Instruction::Rotate2 => Flow::goes_on(2, 0, 2),
        Instruction::Rotate3 => Flow::goes_on(3, 0, 3),
        Instruction::Duplicate => Flow::goes_on(1, 0, 2),
        Instruction::Duplicate2 => Flow::goes_on(2, 0, 4),
        Instruction::CallFunctionPositional => Flow::goes_on(n + 1, 0, 1),
        Instruction::CallFunctionKeyword | Instruction::CallFunctionEx | Instruction::BuildSlice =>
            Flow::goes_on(n + 2, 0, 1),
        Instruction::CallMethodPositional => Flow::goes_on(n + 3, 0, 1),
        Instruction::CallMethodKeyword | Instruction::CallMethodEx => Flow::goes_on(n + 4, 0, 1),
        Instruction::BuildString
        | Instruction::BuildTuple
        | Instruction::BuildList
        | Instruction::BuildSet
        | Instruction::BuildTupleUnpack
        | Instruction::BuildListUnpack
        | Instruction::BuildSetUnpack
        | Instruction::BuildMapForCall => Flow::goes_on(n, 0, 1),
        Instruction::BuildMap => Flow::goes_on(2 * n, 0, 1),
        Instruction::ListAppend | Instruction::SetAdd => Flow::goes_on(1, n + 1, 0),
        Instruction::MapAdd => Flow::goes_on(2, n + 1, 0),
        Instruction::UnpackSequence => Flow::goes_on(1, 0, n),
        Instruction::UnpackEx => Flow::goes_on(1, 0, n % 256 + n / 256 + 1),
        Instruction::MakeFunction => Flow::goes_on(made(n), 0, 1),
        Instruction::TypeAlias => Flow::goes_on(3, 0, 1),
        _ => Flow::goes_on(0, 0, 0),
    }
}
