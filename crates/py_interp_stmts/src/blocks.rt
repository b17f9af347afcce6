//! Blocks: statements whose last value is given.
ghost use Rattle.std.specs.Prelude.{None};
ghost use Rattle.py_bytecode.specs.Values.{Fine, then_do, use_it};
ghost use Rattle.py_control.specs.Form.{returns};
ghost use Rattle.py_tree.specs.View.{expr_tree, stmt_tree, stmts};
ghost use Rattle.py_answers.specs.Log.{world_of};
ghost use Rattle.py_answers.specs.Told.{value_of};
ghost use Rattle.py_interp.specs.Doing.{none};
ghost use Rattle.py_interp.specs.Walks.{walk_expr};
ghost use Rattle.py_interp.specs.Statements.{behind_futures, block_walk, last_walk, stored_return, stmt_walk};
ghost use Rattle.py_interp_simple.specs.Ends.{Ends, flow_of};
ghost use Rattle.py_interp_simple.specs.Parts.{class_value, function_value};

use crate::futures::walk_futures;
use crate::statements::{walk_statement, walk_statements};
use py_answers::{Halt, Log, StepValue};
use py_base::Text;
use py_interp::Around;
use py_interp::constants::none;
use py_interp::names::store;
use py_interp::operands::copy_value;
use py_interp_exprs::walk_expression;
use py_interp_simple::{Flow, walk_class, walk_function};
use py_tree::{Expr, Stmt, StmtClassDef, StmtFunctionDef};

/// Walks future imports and the block that follows them.
///
/// # Errors
/// What ends the run, or OutOfMemory.
pub(crate) fn walk_opened_block(
    log: &mut Log<'_>,
    around: Around,
    body: &[Stmt],
) -> Result<Flow, Halt>
    ensures { Ends flow_of result (world_of log.new) (behind_futures block_walk around (stmts stmt_tree body.now) (world_of log.old)) }
{
    let opening = walk_futures(log, around, body)?;
    walk_block(log, opening.around, &body[opening.count..])
}

// The last statement gives its value, or None.
fn walk_block(log: &mut Log<'_>, around: Around, body: &[Stmt]) -> Result<Flow, Halt>
    ensures { Ends flow_of result (world_of log.new) (block_walk around (stmts stmt_tree body.now) (world_of log.old)) }
{
    let Some((last, before)) = body.split_last() else {
        return Ok(Flow::Return(none()));
    };
    let flow = walk_statements(log, around, before, None)?;
    if !flow.is_normal() {
        return Ok(flow);
    }
    walk_last(log, around, last)
}

#[tactic(auto, using(py_tree::proofs::View::trees))]
fn walk_last(log: &mut Log<'_>, around: Around, statement: &Stmt) -> Result<Flow, Halt>
    ensures { Ends flow_of result (world_of log.new) (last_walk around (stmt_tree statement.now) (world_of log.old)) }
{
    match statement {
        Stmt::Expr(s) => return_expression(log, around, &s.value),
        Stmt::FunctionDef(s) => return_function(log, around, s),
        Stmt::ClassDef(s) => return_class(log, around, s),
        _ => walk_other(log, around, statement),
    }
}

/// Walks an expression, and returns its value.
///
/// # Errors
/// What ends the run, or OutOfMemory.
pub(crate) fn return_expression(
    log: &mut Log<'_>,
    around: Around,
    value: &Expr,
) -> Result<Flow, Halt>
    ensures { Ends flow_of result (world_of log.new) (use_it (walk_expr around (expr_tree value.now) (world_of log.old)) returns) }
{
    let value = walk_expression(log, around, value)?;
    Ok(Flow::Return(value))
}

fn return_function(log: &mut Log<'_>, around: Around, s: &StmtFunctionDef) -> Result<Flow, Halt>
    ensures { Ends flow_of result (world_of log.new) (stored_return (function_value around s.now) s.now.name (world_of log.old)) }
{
    let function = walk_function(log, around, s)?;
    store_returned(log, &s.name, function)
}

fn return_class(log: &mut Log<'_>, around: Around, s: &StmtClassDef) -> Result<Flow, Halt>
    ensures { Ends flow_of result (world_of log.new) (stored_return (class_value around s.now) s.now.name (world_of log.old)) }
{
    let class = walk_class(log, around, s)?;
    store_returned(log, &s.name, class)
}

// What is stored is returned too.
fn store_returned(log: &mut Log<'_>, name: &Text, value: StepValue) -> Result<Flow, Halt>
    ensures { Ends flow_of result (world_of log.new) (stored_return (λ w. Fine (value_of value) w) name.now (world_of log.old)) }
{
    let kept = copy_value(log.alloc, &value)?;
    store(log, name, value)?;
    Ok(Flow::Return(kept))
}

// Walks a statement that has no value, and returns None.
fn walk_other(log: &mut Log<'_>, around: Around, statement: &Stmt) -> Result<Flow, Halt>
    ensures { Ends flow_of result (world_of log.new) (then_do (stmt_walk around (stmt_tree statement.now) None (world_of log.old)) (λ w. returns none w)) }
{
    let flow = walk_statement(log, around, statement, None)?;
    if flow.is_normal() {
        return Ok(Flow::Return(none()));
    }
    Ok(flow)
}
