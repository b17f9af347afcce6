//! Files.
ghost use Rattle.std.specs.Prelude.{None};
ghost use Rattle.py_bytecode.specs.Values.{then_do};
ghost use Rattle.py_control.specs.Form.{returns};
ghost use Rattle.py_tree.specs.View.{stmt_tree, stmts};
ghost use Rattle.py_answers.specs.Log.{world_of};
ghost use Rattle.py_interp.specs.Doing.{none};
ghost use Rattle.py_interp.specs.Statements.{behind_futures, doc_walk, program_walk, setup_walk, stmts_walk};
ghost use Rattle.py_interp_simple.specs.Ends.{Ends, flow_of, goes_on};

use crate::futures::walk_futures;
use crate::statements::walk_statements;
use py_answers::{Halt, Log};
use py_base::Text;
use py_bytecode::Instruction;
use py_interp::Around;
use py_interp::constants::{none, text};
use py_interp::names::store;
use py_interp::operations::{bare, does_none};
use py_interp_exprs::functions::fixed_name;
use py_interp_simple::{Flow, split_doc};
use py_node_values::annotations::has_annotation;
use py_tree::Stmt;

/// Walks a file: its docstring is stored, there is room for annotations where there are any, and None is returned.
///
/// # Errors
/// What ends the run, or OutOfMemory.
pub(crate) fn walk_file(log: &mut Log<'_>, around: Around, body: &[Stmt]) -> Result<Flow, Halt>
    ensures { Ends flow_of result (world_of log.new) (program_walk around (stmts stmt_tree body.now) (world_of log.old)) }
{
    let (doc, from) = split_doc(log.alloc, around.level, body)?;
    let rest = &body[from..];
    store_doc(log, &doc)?;
    set_up(log, has_annotation(rest))?;
    walk_rest(log, around, rest)
}

fn store_doc(log: &mut Log<'_>, doc: &Option<Text>) -> Result<(), Halt>
    ensures { Ends goes_on result (world_of log.new) (doc_walk doc.now (world_of log.old)) }
{
    let Some(doc) = doc else {
        return Ok(());
    };
    let value = text(log.alloc, doc)?;
    let name = fixed_name(log.alloc, "__doc__")?;
    store(log, &name, value)?;
    Ok(())
}

// Makes room for annotations, where there are any.
fn set_up(log: &mut Log<'_>, annotated: bool) -> Result<(), Halt>
    ensures { Ends goes_on result (world_of log.new) (setup_walk annotated (world_of log.old)) }
{
    if !annotated {
        return Ok(());
    }
    does_none(log, bare(Instruction::SetupAnnotation), Vec::new(log.alloc))?;
    Ok(())
}

// Walks future imports and what follows them, and returns None.
fn walk_rest(log: &mut Log<'_>, around: Around, body: &[Stmt]) -> Result<Flow, Halt>
    ensures { Ends flow_of result (world_of log.new) (then_do (behind_futures (λ b ss. stmts_walk b ss None) around (stmts stmt_tree body.now) (world_of log.old)) (λ w. returns none w)) }
{
    let opening = walk_futures(log, around, body)?;
    let flow = walk_statements(log, opening.around, &body[opening.count..], None)?;
    if flow.is_normal() {
        return Ok(Flow::Return(none()));
    }
    Ok(flow)
}
