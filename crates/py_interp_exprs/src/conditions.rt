//! Tests, and what `and` and `or` give.
ghost use Rattle.std.specs.Prelude.{◌≡◌};
ghost use Rattle.py_bytecode.specs.Values.{then_get, truth_of};
ghost use Rattle.py_tree.specs.View.{bool_op_tree, expr_tree, exprs, unary_op_tree};
ghost use Rattle.py_emission_parts.specs.TableParts.{deciding_truth};
ghost use Rattle.py_answers.specs.Log.{Gets, world_of};
ghost use Rattle.py_answers.specs.Told.{value_of};
ghost use Rattle.py_interp.specs.Doing.{shorts, tests};
ghost use Rattle.py_interp.specs.Walks.{all_walks, walk_expr, walk_test};
ghost use Rattle.py_interp_exprs.specs.Parts.{get_truth};

use crate::expressions::{walk_expression, walk_unary_op};
use py_answers::{Halt, Log, StepValue};
use py_interp::Around;
use py_interp::constants::none;
use py_interp::operations::truth;
use py_tree::{BoolOp, Expr, ExprBoolOp, ExprUnaryOp, UnaryOp};

/// A value and its truth.
#[derive(Drop)]
pub(crate) struct Asked {
    pub value: StepValue,
    pub truth: bool,
}

// The truth at which a value decides.
fn deciding(op: BoolOp) -> bool
    ensures { result ≡ deciding_truth op }
{
    match op {
        BoolOp::And => false,
        BoolOp::Or => true,
    }
}

#[cycle(walk)]
pub(crate) fn walk_bool_op(
    log: &mut Log<'_>,
    around: Around,
    e: &ExprBoolOp,
) -> Result<StepValue, Halt>
    ensures { Gets value_of result (world_of log.new) (walk_expr around (bool_op_tree e.now) (world_of log.old)) }
{
    walk_shorts(log, around, deciding(e.op), e.values.as_slice())
}

// Each value but the last is asked for its truth, and the first of this truth decides.
#[cycle(walk)]
fn walk_shorts(
    log: &mut Log<'_>,
    around: Around,
    decides: bool,
    values: &[Expr],
) -> Result<StepValue, Halt>
    ensures { Gets value_of result (world_of log.new) (shorts decides (all_walks around (exprs expr_tree values.now)) (world_of log.old)) }
{
    let count = values.len();
    if count == 0 {
        return Ok(none());
    }
    for i in 0..count - 1 {
        let asked = walk_asked(log, around, &values[i])?;
        if asked.truth == decides {
            return Ok(asked.value);
        }
    }
    walk_expression(log, around, &values[count - 1])
}

// Gets a value, and asks for its truth.
#[cycle(walk)]
fn walk_asked(log: &mut Log<'_>, around: Around, expr: &Expr) -> Result<Asked, Halt>
    ensures { Gets (λ a. (value_of a.value, a.truth)) result (world_of log.new) (get_truth (walk_expr around (expr_tree expr.now)) (world_of log.old)) }
{
    let value = walk_expression(log, around, expr)?;
    let truth = truth(log, &value)?;
    Ok(Asked { value, truth })
}

/// Gets the truth of an expression as a test.
///
/// # Errors
/// What ends the run, or OutOfMemory.
#[cycle(walk)]
#[tactic(auto, using(py_tree::proofs::View::trees))]
pub fn walk_test(log: &mut Log<'_>, around: Around, expr: &Expr) -> Result<bool, Halt>
    ensures { Gets (λ b. b) result (world_of log.new) (walk_test around (expr_tree expr.now) (world_of log.old)) }
{
    match expr {
        Expr::BoolOp(e) => walk_tests(log, around, deciding(e.op), e.values.as_slice()),
        Expr::UnaryOp(e) => walk_unary_test(log, around, e),
        _ => walk_truth(log, around, expr),
    }
}

// Gets the truth of a value.
#[cycle(walk)]
fn walk_truth(log: &mut Log<'_>, around: Around, expr: &Expr) -> Result<bool, Halt>
    ensures { Gets (λ b. b) result (world_of log.new) (then_get (walk_expr around (expr_tree expr.now) (world_of log.old)) truth_of) }
{
    let value = walk_expression(log, around, expr)?;
    log.truth(value)
}

// `not` turns the test of its operand.
#[cycle(walk)]
fn walk_unary_test(log: &mut Log<'_>, around: Around, e: &ExprUnaryOp) -> Result<bool, Halt>
    ensures { Gets (λ b. b) result (world_of log.new) (walk_test around (unary_op_tree e.now) (world_of log.old)) }
{
    match e.op {
        UnaryOp::Not => {
            let truth = walk_test(log, around, &e.operand)?;
            Ok(!truth)
        }
        UnaryOp::Invert | UnaryOp::UAdd | UnaryOp::USub => {
            let value = walk_unary_op(log, around, e)?;
            log.truth(value)
        }
    }
}

// The first test of this truth decides.
#[cycle(walk)]
fn walk_tests(
    log: &mut Log<'_>,
    around: Around,
    decides: bool,
    values: &[Expr],
) -> Result<bool, Halt>
    ensures { Gets (λ b. b) result (world_of log.new) (tests decides (all_walks around (exprs expr_tree values.now)) (world_of log.old)) }
{
    let count = values.len();
    if count == 0 {
        return log.truth(none());
    }
    for i in 0..count - 1 {
        let truth = walk_test(log, around, &values[i])?;
        if truth == decides {
            return Ok(truth);
        }
    }
    walk_test(log, around, &values[count - 1])
}
