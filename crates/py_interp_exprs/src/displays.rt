//! Displays of lists, tuples and sets, and slices.
ghost use Rattle.std.specs.Prelude.{◌≡◌, [], ◌∷◌};
ghost use Rattle.py_bytecode.specs.Objects as object;
ghost use Rattle.py_tree.specs.View.{expr_tree, exprs, opt_box, slice_tree};
ghost use Rattle.py_answers.specs.Log.{Gets, world_of};
ghost use Rattle.py_answers.specs.Told.{value_of};
ghost use Rattle.py_interp.specs.Doing.{display, get_or};
ghost use Rattle.py_interp.specs.Walks.{all_walks, opt_walk, walk_expr};

use crate::elements::{has_star, walk_all, walk_groups};
use crate::expressions::walk_expression;
use py_answers::{Halt, Log, StepValue};
use py_bytecode::Instruction;
use py_interp::Around;
use py_interp::constants::none;
use py_interp::operations::{build, does_three, does_two, numbered};
use py_tree::{Expr, ExprSlice};

/// Gets what is built of elements, or of their groups where some are starred.
#[cycle(walk)]
pub(crate) fn walk_display(
    log: &mut Log<'_>,
    around: Around,
    whole: Instruction,
    unpack: Instruction,
    elts: &[Expr],
) -> Result<StepValue, Halt>
    ensures { Gets value_of result (world_of log.new) (display whole unpack (all_walks around (exprs expr_tree elts.now)) (world_of log.old)) }
{
    if has_star(elts) {
        let groups = walk_groups(log, around, elts)?;
        return build(log, unpack, groups);
    }
    let values = walk_all(log, around, elts)?;
    build(log, whole, values)
}

#[cycle(walk)]
pub(crate) fn walk_slice(
    log: &mut Log<'_>,
    around: Around,
    e: &ExprSlice,
) -> Result<StepValue, Halt>
    ensures { Gets value_of result (world_of log.new) (walk_expr around (slice_tree e.now) (world_of log.old)) }
{
    let lower = walk_or_none(log, around, &e.lower)?;
    let upper = walk_or_none(log, around, &e.upper)?;
    match &e.step {
        Some(step) => {
            let step = walk_expression(log, around, step)?;
            does_three(
                log,
                numbered(Instruction::BuildSlice, 1),
                lower,
                upper,
                step,
            )
        }
        None => does_two(log, numbered(Instruction::BuildSlice, 0), lower, upper),
    }
}

/// Gets a value, which is None where it is missing.
#[cycle(walk)]
pub(crate) fn walk_or_none(
    log: &mut Log<'_>,
    around: Around,
    value: &Option<Box<Expr>>,
) -> Result<StepValue, Halt>
    ensures { Gets value_of result (world_of log.new) (get_or object.none (opt_walk around (opt_box expr_tree value.now)) (world_of log.old)) }
{
    match value {
        Some(value) => walk_expression(log, around, value),
        None => Ok(none()),
    }
}
