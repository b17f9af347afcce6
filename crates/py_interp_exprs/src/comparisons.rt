//! Comparisons.
ghost use Rattle.std.specs.Prelude.{◌≡◌, ◌<◌, ◌≤◌, ◌⊎◌, ◌∷◌, [], length};
ghost use Rattle.py_tree.specs.View.{compare_tree, expr_tree, exprs};
ghost use Rattle.py_emission_parts.specs.TableParts.{comparison_operation};
ghost use Rattle.py_answers.specs.Log.{Gets, world_of};
ghost use Rattle.py_answers.specs.Told.{value_of};
ghost use Rattle.py_interp.specs.Doing.{comparable, comparison_of, does, links};
ghost use Rattle.py_interp.specs.Walks.{all_walks, walk_expr};
ghost use Rattle.py_interp_exprs.specs.Parts.{get_truth};

use crate::conditions::Asked;
use crate::expressions::walk_expression;
use py_answers::{Halt, Log, StepValue};
use py_interp::Around;
use py_interp::constants::none;
use py_interp::operands::copy_value;
use py_interp::operations::{comparison, does_two, truth};
use py_tree::{CmpOp, Expr, ExprCompare};

#[cycle(walk)]
pub(crate) fn walk_compare(
    log: &mut Log<'_>,
    around: Around,
    e: &ExprCompare,
) -> Result<StepValue, Halt>
    ensures { Gets value_of result (world_of log.new) (walk_expr around (compare_tree e.now) (world_of log.old)) }
{
    walk_compared(
        log,
        around,
        &e.left,
        e.ops.as_slice(),
        e.comparators.as_slice(),
    )
}

// Compares a value with others, where there are comparisons and operands.
#[cycle(walk)]
fn walk_compared(
    log: &mut Log<'_>,
    around: Around,
    left: &Expr,
    ops: &[CmpOp],
    others: &[Expr],
) -> Result<StepValue, Halt>
    ensures { Gets value_of result (world_of log.new) (comparison_of (walk_expr around (expr_tree left.now)) ops.now (all_walks around (exprs expr_tree others.now)) (world_of log.old)) }
{
    if !is_comparable(ops, others) {
        return Ok(none());
    }
    let left = walk_expression(log, around, left)?;
    walk_links(log, around, ops, others, left)
}

// Whether so many comparisons have operands that they can be made with.
fn is_comparable(ops: &[CmpOp], others: &[Expr]) -> bool
    ensures { (around : Around) → result ≡ comparable ops.now (all_walks around (exprs expr_tree others.now)) }
{
    match ops.len() {
        0 => false,
        1 => !others.is_empty(),
        _ => others.len() > 1,
    }
}

// Compares a value with what stands right of it, and so on while it is true.
#[cycle(walk)]
fn walk_links(
    log: &mut Log<'_>,
    around: Around,
    ops: &[CmpOp],
    others: &[Expr],
    left: StepValue,
) -> Result<StepValue, Halt>
    requires ops { 0 < length ops.now }
    requires others { 0 < length others.now }
    ensures { Gets value_of result (world_of log.new) (links ops.now (all_walks around (exprs expr_tree others.now)) (value_of left) (world_of log.old)) }
{
    let last = link_count(ops, others) - 1;
    let mut left = left;
    for i in 0..last {
        let right = walk_expression(log, around, &others[i])?;
        let kept = copy_value(log.alloc, &right)?;
        let asked = compare_asked(log, ops[i], left, right)?;
        if !asked.truth {
            return Ok(asked.value);
        }
        left = kept;
    }
    let right = walk_expression(log, around, &others[last])?;
    does_two(log, comparison(ops[last]), left, right)
}

// How many comparisons have an operand.
fn link_count(ops: &[CmpOp], others: &[Expr]) -> usize
    ensures ops { result ≤ length ops.now }
    ensures others { result ≤ length others.now }
    ensures all { (result ≡ length ops.now) ⊎ (result ≡ length others.now) }
{
    let count = ops.len();
    let most = others.len();
    if count < most { count } else { most }
}

// Compares two values, and asks for the truth of the answer.
fn compare_asked(
    log: &mut Log<'_>,
    op: CmpOp,
    left: StepValue,
    right: StepValue,
) -> Result<Asked, Halt>
    ensures { Gets (λ a. (value_of a.value, a.truth)) result (world_of log.new) (get_truth (does (comparison_operation op) (value_of left ∷ value_of right ∷ [])) (world_of log.old)) }
{
    let value = does_two(log, comparison(op), left, right)?;
    let truth = truth(log, &value)?;
    Ok(Asked { value, truth })
}
