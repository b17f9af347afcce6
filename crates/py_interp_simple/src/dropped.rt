//! Expressions whose value is dropped: a constant is not made.
ghost use Rattle.std.specs.Prelude.{◌≡◌};
ghost use Rattle.py_tree.specs.View.{expr_tree, exprs, if_exp_tree};
ghost use Rattle.py_emission_parts.specs.TableParts.{deciding_truth};
ghost use Rattle.py_answers.specs.Log.{Gets, world_of};
ghost use Rattle.py_answers.specs.Told.{value_of};
ghost use Rattle.py_interp.specs.Acting.{into};
ghost use Rattle.py_interp.specs.Doing.{drop_it, shorts};
ghost use Rattle.py_interp.specs.Walks.{all_walks, walk_expr};
ghost use Rattle.py_interp_exprs.specs.Parts.{get_truth};
ghost use Rattle.py_interp_simple.specs.Ends.{Ends, goes_on};

use py_answers::{Halt, Log, StepValue};
use py_interp::Around;
use py_interp::operations::truth;
use py_interp_exprs::{walk_expression, walk_test};
use py_tree::{BoolOp, Expr, ExprIfExp};

/// Does what an expression does, and drops its value.
///
/// # Errors
/// What ends the run, or OutOfMemory.
#[cycle(dropped)]
#[tactic(auto, using(py_tree::proofs::View::trees))]
pub(crate) fn walk_dropped(log: &mut Log<'_>, around: Around, expr: &Expr) -> Result<(), Halt>
    ensures { Ends goes_on result (world_of log.new) (into (walk_expr around (expr_tree expr.now)) drop_it (world_of log.old)) }
{
    match expr {
        Expr::Constant(_) => Ok(()),
        Expr::IfExp(e) => walk_dropped_branch(log, around, e),
        Expr::BoolOp(e) => walk_dropped_shorts(log, around, deciding(e.op), e.values.as_slice()),
        _ => walk_made(log, around, expr),
    }
}

// Makes a value, and drops it.
fn walk_made(log: &mut Log<'_>, around: Around, expr: &Expr) -> Result<(), Halt>
    ensures { Ends goes_on result (world_of log.new) (into (walk_expr around (expr_tree expr.now)) drop_it (world_of log.old)) }
{
    let _value = walk_expression(log, around, expr)?;
    Ok(())
}

#[cycle(dropped)]
fn walk_dropped_branch(log: &mut Log<'_>, around: Around, e: &ExprIfExp) -> Result<(), Halt>
    ensures { Ends goes_on result (world_of log.new) (into (walk_expr around (if_exp_tree e.now)) drop_it (world_of log.old)) }
{
    if walk_test(log, around, &e.test)? {
        walk_dropped(log, around, &e.body)
    } else {
        walk_dropped(log, around, &e.orelse)
    }
}

// The truth at which a value decides.
fn deciding(op: BoolOp) -> bool
    ensures { result ≡ deciding_truth op }
{
    match op {
        BoolOp::And => false,
        BoolOp::Or => true,
    }
}

// Each value but the last is asked for its truth, and the first of this truth decides.
#[cycle(dropped)]
fn walk_dropped_shorts(
    log: &mut Log<'_>,
    around: Around,
    decides: bool,
    values: &[Expr],
) -> Result<(), Halt>
    ensures { Ends goes_on result (world_of log.new) (into (shorts decides (all_walks around (exprs expr_tree values.now))) drop_it (world_of log.old)) }
{
    let count = values.len();
    if count == 0 {
        return Ok(());
    }
    for i in 0..count - 1 {
        let asked = walk_asked(log, around, &values[i])?;
        if asked.1 == decides {
            return Ok(());
        }
    }
    walk_dropped(log, around, &values[count - 1])
}

// Gets a value, and asks for its truth.
fn walk_asked(log: &mut Log<'_>, around: Around, expr: &Expr) -> Result<(StepValue, bool), Halt>
    ensures { Gets (λ a. (value_of a.0, a.1)) result (world_of log.new) (get_truth (walk_expr around (expr_tree expr.now)) (world_of log.old)) }
{
    let value = walk_expression(log, around, expr)?;
    let truth = truth(log, &value)?;
    Ok((value, truth))
}
