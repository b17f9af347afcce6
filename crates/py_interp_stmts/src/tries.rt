//! `try`, its handlers and its finally block.
ghost use Rattle.std.specs.Prelude.{Some};
ghost use Rattle.py_tree.specs.View.{expr_tree, handlers as handler_trees, opt_box, stmt_tree, stmts, try_tree};
ghost use Rattle.py_bytecode.specs.Values.{Ended, Given, then_do};
ghost use Rattle.py_control.specs.Form.{assign_then, finally_run, try_run};
ghost use Rattle.py_answers.specs.Log.{Gets, world_of};
ghost use Rattle.py_answers.specs.Told.{Known};
ghost use Rattle.py_interp.specs.Acting.{constant, into, put_name, remove, store, unname};
ghost use Rattle.py_interp.specs.Statements.{handlers_walk, stmt_walk, stmts_walk};
ghost use Rattle.py_bytecode.specs.Objects as object;
ghost use Rattle.py_interp_simple.specs.Ends.{Ends, flow_of, goes_on, slot_of};
ghost use Rattle.py_interp_stmts.specs.Catching.{handler_run, takes};
ghost use Rattle.py_interp_stmts.specs.Over.{do_last};

use crate::endings::{in_hand, is_over};
use crate::statements::walk_statements;
use py_answers::{Halt, Log, StepValue};
use py_base::Text;
use py_bytecode::Instruction;
use py_interp::Around;
use py_interp::constants::none;
use py_interp::names::store;
use py_interp::operations::{does_two, numbered};
use py_interp_exprs::walk_expression;
use py_interp_simple::Flow;
use py_tree::{ExceptHandler, Expr, Stmt, StmtTry};

/// Walks a body, what handles its exceptions, an else part, and a finally block on every way out.
#[cycle(walk)]
pub(crate) fn walk_try(
    log: &mut Log<'_>,
    around: Around,
    s: &StmtTry,
    slot: Option<u32>,
) -> Result<Flow, Halt>
    ensures { Ends flow_of result (world_of log.new) (stmt_walk around (try_tree s.now) (slot_of slot) (world_of log.old)) }
{
    if s.finalbody.is_empty() {
        return walk_handled(log, around, s, slot);
    }
    walk_finally(log, around, s, slot)
}

// All but the finally block, and then the finally block.
#[cycle(walk)]
fn walk_finally(
    log: &mut Log<'_>,
    around: Around,
    s: &StmtTry,
    slot: Option<u32>,
) -> Result<Flow, Halt>
    ensures { Ends flow_of result (world_of log.new) (finally_run (try_run (stmts_walk around (stmts stmt_tree s.now.body) (slot_of slot)) (handlers_walk around (handler_trees stmt_tree s.now.handlers)) (stmts_walk around (stmts stmt_tree s.now.orelse) (slot_of slot))) (stmts_walk around (stmts stmt_tree s.now.finalbody)) (slot_of slot) (world_of log.old)) }
{
    let ended = walk_handled(log, around, s, slot);
    if is_over(&ended) {
        return ended;
    }
    let raised = in_hand(&ended, slot);
    let flow = walk_statements(log, around, s.finalbody.as_slice(), raised)?;
    if flow.is_normal() {
        return ended;
    }
    Ok(flow)
}

// A body, its handlers and its else part.
#[cycle(walk)]
fn walk_handled(
    log: &mut Log<'_>,
    around: Around,
    s: &StmtTry,
    slot: Option<u32>,
) -> Result<Flow, Halt>
    ensures { Ends flow_of result (world_of log.new) (try_run (stmts_walk around (stmts stmt_tree s.now.body) (slot_of slot)) (handlers_walk around (handler_trees stmt_tree s.now.handlers)) (stmts_walk around (stmts stmt_tree s.now.orelse) (slot_of slot)) (world_of log.old)) }
{
    match walk_statements(log, around, s.body.as_slice(), slot) {
        Ok(Flow::Normal) => walk_statements(log, around, s.orelse.as_slice(), slot),
        Ok(Flow::Break) => Ok(Flow::Break),
        Ok(Flow::Continue) => Ok(Flow::Continue),
        Ok(Flow::Return(value)) => Ok(Flow::Return(value)),
        Err(Halt::Raised(exception)) => {
            walk_handlers(log, around, s.handlers.as_slice(), exception)
        }
        Err(Halt::Stopped) => Err(Halt::Stopped),
        Err(Halt::OutOfMemory) => Err(Halt::OutOfMemory),
    }
}

/// Walks the first of the handlers that takes the exception which the answer of this number raised. One that none of them
/// takes goes on.
///
/// # Errors
/// What ends the run, or OutOfMemory.
#[cycle(walk)]
pub fn walk_handlers(
    log: &mut Log<'_>,
    around: Around,
    handlers: &[ExceptHandler],
    exception: u32,
) -> Result<Flow, Halt>
    ensures { Ends flow_of result (world_of log.new) (handlers_walk around (handler_trees stmt_tree handlers.now) (Given exception 0) (world_of log.old)) }
{
    for handler in handlers {
        if takes(log, around, &handler.type_, exception)? {
            return walk_handler(log, around, handler, exception);
        }
    }
    Err(Halt::Raised(exception))
}

// Whether a handler takes an exception.
fn takes(
    log: &mut Log<'_>,
    around: Around,
    type_: &Option<Box<Expr>>,
    exception: u32,
) -> Result<bool, Halt>
    ensures { Gets (λ b. b) result (world_of log.new) (takes around (opt_box expr_tree type_.now) (Given exception 0) (world_of log.old)) }
{
    let Some(type_) = type_ else {
        return Ok(true);
    };
    let class = walk_expression(log, around, type_)?;
    let raised = StepValue::Given {
        answer: exception,
        index: 0,
    };
    let answer = does_two(log, numbered(Instruction::TestOperation, 4), raised, class)?;
    log.truth(answer)
}

#[cycle(walk)]
fn walk_handler(
    log: &mut Log<'_>,
    around: Around,
    handler: &ExceptHandler,
    exception: u32,
) -> Result<Flow, Halt>
    ensures { Ends flow_of result (world_of log.new) (handler_run around (opt_box expr_tree handler.now.type_) handler.now.name (stmts stmt_tree handler.now.body) (Given exception 0) (world_of log.old)) }
{
    match &handler.type_ {
        None => walk_statements(log, around, handler.body.as_slice(), Some(exception)),
        Some(_) => walk_bound(
            log,
            around,
            &handler.name,
            handler.body.as_slice(),
            exception,
        ),
    }
}

// The body of a handler with a type, whose name has the exception.
#[cycle(walk)]
fn walk_bound(
    log: &mut Log<'_>,
    around: Around,
    name: &Option<Text>,
    body: &[Stmt],
    exception: u32,
) -> Result<Flow, Halt>
    ensures { Ends flow_of result (world_of log.new) (assign_then (put_name name.now) (unname name.now (stmts_walk around (stmts stmt_tree body.now)) (Some (Given exception 0))) (Given exception 0) (world_of log.old)) }
{
    match name {
        None => walk_statements(log, around, body, Some(exception)),
        Some(name) => walk_named(log, around, name, body, exception),
    }
}

// On every way out of the body the name is set to None and deleted.
#[cycle(walk)]
fn walk_named(
    log: &mut Log<'_>,
    around: Around,
    name: &Text,
    body: &[Stmt],
    exception: u32,
) -> Result<Flow, Halt>
    ensures { Ends flow_of result (world_of log.new) (assign_then (put_name (Some name.now)) (unname (Some name.now) (stmts_walk around (stmts stmt_tree body.now)) (Some (Given exception 0))) (Given exception 0) (world_of log.old)) }
{
    let raised = StepValue::Given {
        answer: exception,
        index: 0,
    };
    store(log, name, raised)?;
    let ended = walk_statements(log, around, body, Some(exception));
    forget(log, name, ended)
}

// Sets a name to None and deletes it, on the way out that is in hand.
fn forget(log: &mut Log<'_>, name: &Text, ended: Result<Flow, Halt>) -> Result<Flow, Halt>
    ensures { (end : Ended Known) → Ends flow_of ended (world_of log.old) end → Ends flow_of result (world_of log.new) (do_last (λ w. then_do (into (constant object.none) (store name.now) w) (remove name.now)) end) }
{
    if is_over(&ended) {
        return ended;
    }
    remove_name(log, name)?;
    ended
}

fn remove_name(log: &mut Log<'_>, name: &Text) -> Result<(), Halt>
    ensures { Ends goes_on result (world_of log.new) (then_do (into (constant object.none) (store name.now) (world_of log.old)) (remove name.now)) }
{
    store(log, name, none())?;
    log.delete(name)?;
    Ok(())
}
