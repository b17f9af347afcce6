//! Elements, some of which may be starred.
ghost use Rattle.std.specs.Prelude.{◌≡◌, []};
ghost use Rattle.py_tree.specs.View.{expr_tree, exprs};
ghost use Rattle.py_answers.specs.Log.{Gets, world_of};
ghost use Rattle.py_answers.specs.Told.{values_of};
ghost use Rattle.py_interp.specs.Doing.{get_all, get_groups, values_of_all};
ghost use Rattle.py_interp.specs.Walks.{all_walks, walk_expr};
ghost use Rattle.py_interp_exprs.specs.Parts.{get_behind};
ghost use Rattle.py_interp_exprs.specs.Starred.{any_starred, is_starred};

use crate::expressions::walk_expression;
use crate::groups::close_run;
use py_answers::{Halt, Log, StepValue};
use py_interp::Around;
use py_interp::operands::push;
use py_tree::Expr;

/// Whether an element is starred.
pub fn has_star(elts: &[Expr]) -> bool
    ensures { result ≡ any_starred (exprs expr_tree elts.now) }
{
    for elt in elts {
        if is_star(elt) {
            return true;
        }
    }
    false
}

/// Whether an expression is starred.
#[tactic(auto, using(py_tree::proofs::View::trees))]
pub fn is_star(elt: &Expr) -> bool
    ensures { result ≡ is_starred (expr_tree elt.now) }
{
    match elt {
        Expr::Starred(_) => true,
        _ => false,
    }
}

/// Gets the values of expressions, one after the other.
///
/// # Errors
/// What ends the run, or OutOfMemory.
#[cycle(walk)]
pub fn walk_all(log: &mut Log<'_>, around: Around, items: &[Expr]) -> Result<Vec<StepValue>, Halt>
    ensures { Gets (λ v. values_of v.items) result (world_of log.new) (get_all [] (values_of_all (all_walks around (exprs expr_tree items.now))) (world_of log.old)) }
{
    let mut values = Vec::new(log.alloc);
    for item in items {
        values = walk_behind(log, around, values, item)?;
    }
    Ok(values)
}

/// Gets the value of an expression after others.
///
/// # Errors
/// What ends the run, or OutOfMemory.
#[cycle(walk)]
pub fn walk_behind(
    log: &mut Log<'_>,
    around: Around,
    mut values: Vec<StepValue>,
    expr: &Expr,
) -> Result<Vec<StepValue>, Halt>
    ensures { Gets (λ v. values_of v.items) result (world_of log.new) (get_behind (values_of values.items) (walk_expr around (expr_tree expr.now)) (world_of log.old)) }
{
    let value = walk_expression(log, around, expr)?;
    push(&mut values, value)?;
    Ok(values)
}

/// Gets a tuple of each longest run of plain elements, and each starred value itself.
#[cycle(walk)]
pub(crate) fn walk_groups(
    log: &mut Log<'_>,
    around: Around,
    elts: &[Expr],
) -> Result<Vec<StepValue>, Halt>
    ensures { Gets (λ v. values_of v.items) result (world_of log.new) (get_groups [] [] (all_walks around (exprs expr_tree elts.now)) (world_of log.old)) }
{
    let mut groups = Vec::new(log.alloc);
    let mut run = Vec::new(log.alloc);
    for elt in elts {
        if is_star(elt) {
            let closed = close_run(log, groups, run)?;
            groups = walk_behind(log, around, closed, elt)?;
            run = Vec::new(log.alloc);
        } else {
            run = walk_behind(log, around, run, elt)?;
        }
    }
    close_run(log, groups, run)
}
