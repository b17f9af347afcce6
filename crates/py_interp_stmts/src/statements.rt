//! Statements.
ghost use Rattle.py_tree.specs.View.{if_tree, stmt_tree, stmts};
ghost use Rattle.py_answers.specs.Log.{world_of};
ghost use Rattle.py_interp.specs.Statements.{stmt_walk, stmts_walk};
ghost use Rattle.py_interp_simple.specs.Ends.{Ends, flow_of, slot_of};

use crate::loops::{walk_for, walk_while};
use crate::tries::walk_try;
use crate::withs::walk_with;
use py_answers::{Halt, Log};
use py_interp::Around;
use py_interp_exprs::walk_test;
use py_interp_simple::{
    Flow, walk_ann_assign, walk_assert, walk_assign, walk_aug_assign, walk_class_def, walk_delete,
    walk_expr_statement, walk_function_def, walk_import, walk_import_from, walk_raise, walk_return,
    walk_type_alias,
};
use py_tree::{Stmt, StmtIf};

/// Walks statements one after the other, while the exception is handled that the answer of this number raised, where there
/// is one.
///
/// # Errors
/// What ends the run, or OutOfMemory.
#[cycle(walk)]
pub fn walk_statements(
    log: &mut Log<'_>,
    around: Around,
    body: &[Stmt],
    slot: Option<u32>,
) -> Result<Flow, Halt>
    ensures { Ends flow_of result (world_of log.new) (stmts_walk around (stmts stmt_tree body.now) (slot_of slot) (world_of log.old)) }
{
    for statement in body {
        let flow = walk_statement(log, around, statement, slot)?;
        if !flow.is_normal() {
            return Ok(flow);
        }
    }
    Ok(Flow::Normal)
}

/// Walks a statement. One that is not compiled does nothing.
///
/// # Errors
/// What ends the run, or OutOfMemory.
#[cycle(walk)]
#[tactic(auto, using(py_tree::proofs::View::trees))]
pub fn walk_statement(
    log: &mut Log<'_>,
    around: Around,
    statement: &Stmt,
    slot: Option<u32>,
) -> Result<Flow, Halt>
    ensures { Ends flow_of result (world_of log.new) (stmt_walk around (stmt_tree statement.now) (slot_of slot) (world_of log.old)) }
{
    match statement {
        Stmt::FunctionDef(s) => walk_function_def(log, around, s),
        Stmt::ClassDef(s) => walk_class_def(log, around, s),
        Stmt::Return(s) => walk_return(log, around, &s.value),
        Stmt::Delete(s) => walk_delete(log, around, s.targets.as_slice()),
        Stmt::Assign(s) => walk_assign(log, around, s),
        Stmt::TypeAlias(s) => walk_type_alias(log, around, s),
        Stmt::AugAssign(s) => walk_aug_assign(log, around, s),
        Stmt::AnnAssign(s) => walk_ann_assign(log, around, s),
        Stmt::For(s) => walk_for(log, around, s, slot),
        Stmt::While(s) => walk_while(log, around, s, slot),
        Stmt::If(s) => walk_if(log, around, s, slot),
        Stmt::With(s) => walk_with(log, around, s, slot),
        Stmt::Raise(s) => walk_raise(log, around, s, slot),
        Stmt::Try(s) => walk_try(log, around, s, slot),
        Stmt::Assert(s) => walk_assert(log, around, s),
        Stmt::Import(s) => walk_import(log, s.names.as_slice()),
        Stmt::ImportFrom(s) => walk_import_from(log, s),
        Stmt::Expr(s) => walk_expr_statement(log, around, &s.value),
        Stmt::Break(_) => Ok(Flow::Break),
        Stmt::Continue(_) => Ok(Flow::Continue),
        Stmt::Global(_)
        | Stmt::Nonlocal(_)
        | Stmt::Pass(_)
        | Stmt::AsyncFunctionDef(_)
        | Stmt::AsyncFor(_)
        | Stmt::AsyncWith(_)
        | Stmt::Match(_)
        | Stmt::TryStar(_) => Ok(Flow::Normal),
    }
}

#[cycle(walk)]
fn walk_if(log: &mut Log<'_>, around: Around, s: &StmtIf, slot: Option<u32>) -> Result<Flow, Halt>
    ensures { Ends flow_of result (world_of log.new) (stmt_walk around (if_tree s.now) (slot_of slot) (world_of log.old)) }
{
    if walk_test(log, around, &s.test)? {
        walk_statements(log, around, s.body.as_slice(), slot)
    } else {
        walk_statements(log, around, s.orelse.as_slice(), slot)
    }
}
