//! Why blocks have no code.
use thiserror::Error;

/// Why blocks have no code. A place is counted in its block, and one of 2^32 or more is given as 2^32 - 1.
#[derive(Clone, Copy, PartialEq, Eq, Debug, Drop, Error)]
pub enum FinalizeError {
    #[error("there is no block")]
    NoBlocks,
    #[error("block {block} leads to no block, or to one before it")]
    BrokenChain { block: u32 },
    #[error("the target at {block}:{place} is not in the chain")]
    TargetOutside { block: u32, place: u32 },
    #[error("the jump at {block}:{place} has no target")]
    JumpWithoutTarget { block: u32, place: u32 },
    #[error("what stands at {block}:{place} is no jump and has a target")]
    TargetOnOther { block: u32, place: u32 },
    #[error("a prefix stands at {block}:{place}")]
    PrefixGiven { block: u32, place: u32 },
    #[error("the operand at {block}:{place} is out of range")]
    OperandOutside { block: u32, place: u32 },
    #[error("a table has 2^31 entries or more")]
    TooManyNames,
    #[error("the end is reached, from block {block}")]
    NoEnd { block: u32 },
    #[error("{block}:{place} is reached with different heights")]
    UnevenHeights { block: u32, place: u32 },
    #[error("the height after {block}:{place} is out of range")]
    HeightOutOfRange { block: u32, place: u32 },
    #[error("the blocks at {block}:{place} do not match")]
    BlockMismatch { block: u32, place: u32 },
    #[error("the code has too many units")]
    TooManyUnits,
    #[error("out of memory")]
    OutOfMemory,
}
