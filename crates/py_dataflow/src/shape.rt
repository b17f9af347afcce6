//! Shapes: the blocks that are open at a place, the innermost first.
ghost use Rattle.std.specs.Prelude.{◌≡◌, ◌+◌, ◌<◌, ◌≤◌, ◌||◌, true, false, IfOk, drop, if◌then◌else◌, length};
ghost use Rattle.py_dataflow.specs.Walks.{Alike, cut_to, from_loop, has_block, height_of, is_entered, is_final, is_handler, is_loop, is_with, with_opening, rest_of, tops};
ghost use Rattle.py_dataflow.specs.Known.{Torn, join, joined_mark, lacked_marks, lacking_in, missing_in};

use crate::{Kind, Mark, NeededBlock, Opening};
use std::alloc::{AllocError, Global};

impl Kind {
    /// Whether the block is that of a loop.
    pub fn is_loop(self) -> bool
        ensures { result ≡ is_loop self }
    {
        matches!(self, Kind::Loop)
    }

    /// Whether the block is that of a `with`.
    pub fn is_with(self) -> bool
        ensures { result ≡ is_with self }
    {
        matches!(self, Kind::With)
    }

    /// Whether the block is one that a setup instruction opens, and not that of a handler.
    pub fn is_entered(self) -> bool
        ensures { result ≡ is_entered self }
    {
        matches!(self, Kind::Loop | Kind::Except | Kind::Finally | Kind::With)
    }

    /// Whether the block is that of an `except` handler.
    pub fn is_handler(self) -> bool
        ensures { result ≡ is_handler self }
    {
        matches!(self, Kind::ExceptHandler)
    }

    /// Whether the block is that of a `finally` handler.
    pub fn is_final(self) -> bool
        ensures { result ≡ is_final self }
    {
        matches!(self, Kind::FinallyHandler)
    }
}

/// The index of the innermost loop's block, or the length of the shape where there is none.
pub fn loop_index(shape: &[Mark]) -> usize
    ensures at { drop result shape.now ≡ from_loop shape.now }
    ensures within { result ≤ length shape.now }
{
    for (i, mark) in shape.iter().enumerate() {
        if mark.kind.is_loop() {
            return i;
        }
    }
    shape.len()
}

/// Whether a loop's block is open.
pub fn has_loop(shape: &[Mark]) -> bool
    ensures { result ≡ tops (λ m. true) (from_loop shape.now) }
{
    loop_index(shape) < shape.len()
}

/// The height that a `continue` cuts the stack to, from this height: that of the outermost block within the innermost
/// loop, one less where that block is a `with`'s, which keeps its exit below it.
pub fn cut(height: u32, shape: &[Mark]) -> u32
    ensures { result ≡ cut_to height shape.now }
{
    let mut cut = height;
    for mark in shape {
        if mark.kind.is_loop() {
            return cut;
        }
        cut = if mark.kind.is_with() {
            mark.height.saturating_sub(1)
        } else {
            mark.height
        };
    }
    cut
}

/// The height of the innermost block, or 0 where none is open.
pub fn top_height(shape: &[Mark]) -> u32
    ensures { result ≡ height_of shape.now }
{
    match shape.first() {
        Some(mark) => mark.height,
        None => 0,
    }
}

/// The blocks that stay: all, or all but the innermost where that is closed.
pub fn kept_blocks(pops: bool, shape: &[Mark]) -> &[Mark]
    ensures { result.now ≡ (if pops then rest_of shape.now else shape.now) }
{
    if pops && !shape.is_empty() {
        &shape[1..]
    } else {
        shape
    }
}

/// Whether the block that an instruction needs is there, at this height of the stack.
pub fn block_present(needs: NeededBlock, height: u32, shape: &[Mark]) -> bool
    ensures { result ≡ has_block needs height shape.now }
{
    match needs {
        NeededBlock::Nothing => true,
        NeededBlock::Entered => match shape.first() {
            Some(mark) => mark.kind.is_entered(),
            None => false,
        },
        NeededBlock::ExceptHandler => match shape.first() {
            Some(mark) => mark.kind.is_handler(),
            None => false,
        },
        NeededBlock::FinallyHandler => match shape.first() {
            Some(mark) => mark.kind.is_final(),
            None => false,
        },
        NeededBlock::NotExit => match shape.first() {
            Some(mark) => mark.kind.is_final() && mark.height == height && !mark.exit,
            None => false,
        },
        NeededBlock::NotPlain => match shape.first() {
            Some(mark) => mark.kind.is_final() && mark.height == height && !mark.plain,
            None => false,
        },
        NeededBlock::Loop => has_loop(shape),
    }
}

/// The shape with one more block at this height, where one is opened.
///
/// # Errors
/// There is no memory for it.
pub fn with_top(
    alloc: Global,
    top: Option<Opening>,
    height: u32,
    below: &[Mark],
) -> Result<Vec<Mark>, AllocError>
    ensures { IfOk result (λ shape. shape.items ≡ with_opening top height below.now) }
{
    let mut shape = Vec::with_capacity(alloc, below.len() + top.is_some() as usize)?;
    if let Some(opening) = top {
        shape.push(Mark {
            kind: opening.kind,
            height,
            plain: opening.plain,
            exit: opening.exit,
        })?;
    }
    shape.extend_from_slice(below)?;
    Ok(shape)
}

fn either(one: bool, other: bool) -> bool
    ensures { result ≡ (one || other) }
{
    one || other
}

fn join_marks(mine: Mark, theirs: Mark) -> Mark
    ensures { result ≡ joined_mark mine theirs }
{
    Mark {
        kind: mine.kind,
        height: mine.height,
        plain: either(mine.plain, theirs.plain),
        exit: either(mine.exit, theirs.exit),
    }
}

fn is_new(mine: bool, theirs: bool) -> bool
    ensures yes { result ≡ true → (lacked_marks mine ≡ 1) × (lacked_marks (mine || theirs) ≡ 0) }
    ensures no { result ≡ false → (mine || theirs) ≡ mine }
{
    theirs && !mine
}

fn adds(mine: Mark, theirs: Mark) -> bool
    ensures yes { result ≡ true → lacking_in (joined_mark mine theirs) < lacking_in mine }
    ensures no { result ≡ false → joined_mark mine theirs ≡ mine }
{
    let plain = is_new(mine.plain, theirs.plain);
    let exit = is_new(mine.exit, theirs.exit);
    plain || exit
}

/// The blocks of two shapes of equal kinds and heights, with the marks of both.
///
/// # Errors
/// There is no memory for them.
pub fn join_shapes(alloc: Global, mine: &[Mark], theirs: &[Mark]) -> Result<Vec<Mark>, AllocError>
    requires { length mine.now ≡ length theirs.now }
    ensures { IfOk result (λ shape. shape.items ≡ join mine.now theirs.now) }
{
    let mut shape = Vec::with_capacity(alloc, mine.len())?;
    for (i, mark) in mine.iter().enumerate() {
        shape.push(join_marks(*mark, theirs[i]))?;
    }
    Ok(shape)
}

/// Whether two shapes have the same kinds and heights.
pub fn are_alike(mine: &[Mark], theirs: &[Mark]) -> bool
    ensures yes { result ≡ true → Alike mine.now theirs.now }
    ensures no { result ≡ false → ¬ Alike mine.now theirs.now }
{
    if mine.len() != theirs.len() {
        return false;
    }
    for (i, mark) in mine.iter().enumerate() {
        let other = theirs[i];
        if mark.kind != other.kind || mark.height != other.height {
            return false;
        }
    }
    true
}

/// Whether a block is marked both ways: as that of a `finally` statement and as that of a `with`.
pub fn is_torn(shape: &[Mark]) -> bool
    ensures yes { result ≡ true → Torn shape.now }
    ensures no { result ≡ false → ¬ Torn shape.now }
{
    for mark in shape {
        if mark.plain && mark.exit {
            return true;
        }
    }
    false
}

/// Whether the second shape has a mark that the first one lacks.
pub fn adds_mark(mine: &[Mark], theirs: &[Mark]) -> bool
    requires { length mine.now ≡ length theirs.now }
    ensures yes { result ≡ true → missing_in (join mine.now theirs.now) < missing_in mine.now }
    ensures no { result ≡ false → join mine.now theirs.now ≡ mine.now }
{
    for (i, mark) in mine.iter().enumerate() {
        if adds(*mark, theirs[i]) {
            return true;
        }
    }
    false
}
