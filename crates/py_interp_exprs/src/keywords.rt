//! The keywords of calls, their values, their names and the maps of runs of named ones.
ghost use Rattle.std.specs.Prelude.{◌≡◌, [], IfErr, IfOk};
ghost use Rattle.py_tree.specs.View.{expr_tree, keywords as keyword_trees};
ghost use Rattle.py_bytecode.specs.View.{constant};
ghost use Rattle.py_bytecode.specs.Objects as object;
ghost use Rattle.py_bytecode.specs.Objects.{tuple};
ghost use Rattle.py_answers.specs.Log.{Gets, world_of};
ghost use Rattle.py_answers.specs.Told.{values_of};
ghost use Rattle.py_interp.specs.Doing.{get_all, get_maps, name_tuple, values_in};
ghost use Rattle.py_interp.specs.Walks.{keyword_walks, walk_expr};
ghost use Rattle.py_interp_exprs.specs.Parts.{get_named};
ghost use Rattle.py_interp_exprs.specs.Keywords.{any_unpacked, names_of};

use crate::elements::walk_behind;
use crate::expressions::walk_expression;
use crate::groups::close_map;
use py_answers::{Halt, Log, StepValue};
use py_base::{List, Text};
use py_bytecode::ConstantData;
use py_interp::Around;
use py_interp::constants::text;
use py_interp::operands::{one, push};
use py_tree::{Expr, Keyword};
use std::alloc::{AllocError, Global};

/// Whether a map is unpacked.
pub fn has_map(keywords: &[Keyword]) -> bool
    ensures { result ≡ any_unpacked (keyword_trees expr_tree keywords.now) }
{
    for keyword in keywords {
        if keyword.arg.is_none() {
            return true;
        }
    }
    false
}

/// Gets the values of keywords after others.
///
/// # Errors
/// What ends the run, or OutOfMemory.
#[cycle(walk)]
pub fn walk_keyword_values(
    log: &mut Log<'_>,
    around: Around,
    mut values: Vec<StepValue>,
    keywords: &[Keyword],
) -> Result<Vec<StepValue>, Halt>
    ensures { Gets (λ v. values_of v.items) result (world_of log.new) (get_all (values_of values.items) (values_in (keyword_walks around (keyword_trees expr_tree keywords.now))) (world_of log.old)) }
{
    for keyword in keywords {
        values = walk_behind(log, around, values, &keyword.value)?;
    }
    Ok(values)
}

/// The tuple of the names of keywords, where there are keywords.
///
/// # Errors
/// OutOfMemory alone.
pub(crate) fn names_given(alloc: Global, keywords: &[Keyword]) -> Result<Vec<StepValue>, Halt>
    ensures ok { IfOk result (λ v. (around : Around) → values_of v.items ≡ name_tuple (keyword_walks around (keyword_trees expr_tree keywords.now))) }
    ensures err { IfErr result (λ h. h ≡ Halt.OutOfMemory) }
{
    if keywords.is_empty() {
        return Ok(Vec::new(alloc));
    }
    match tuple_of_names(alloc, keywords) {
        Ok(names) => one(alloc, StepValue::Constant(names)),
        Err(_) => Err(Halt::OutOfMemory),
    }
}

// The tuple of the names of keywords.
#[tactic(auto, using(py_bytecode::proofs::View::views))]
fn tuple_of_names(alloc: Global, keywords: &[Keyword]) -> Result<ConstantData, AllocError>
    ensures { IfOk result (λ c. constant c ≡ tuple (names_of (keyword_trees expr_tree keywords.now))) }
{
    let mut names = Vec::new(alloc);
    for keyword in keywords {
        if let Some(name) = &keyword.arg {
            names.push(text_data(alloc, name)?)?;
        }
    }
    let elements = List::from_vec(names);
    Ok(ConstantData::Tuple { elements })
}

// The constant that a text is.
#[tactic(auto, using(py_bytecode::proofs::View::views))]
fn text_data(alloc: Global, text: &Text) -> Result<ConstantData, AllocError>
    ensures { IfOk result (λ c. constant c ≡ object.str text.now) }
{
    let value = text.try_clone(alloc)?;
    Ok(ConstantData::Str { value })
}

/// Gets a map of each longest run of named values, and each map that is unpacked.
///
/// # Errors
/// What ends the run, or OutOfMemory.
#[cycle(walk)]
pub fn walk_maps(
    log: &mut Log<'_>,
    around: Around,
    keywords: &[Keyword],
) -> Result<Vec<StepValue>, Halt>
    ensures { Gets (λ v. values_of v.items) result (world_of log.new) (get_maps [] 0 [] (keyword_walks around (keyword_trees expr_tree keywords.now)) (world_of log.old)) }
{
    let mut maps = Vec::new(log.alloc);
    let mut count = 0;
    let mut run = Vec::new(log.alloc);
    for keyword in keywords {
        match &keyword.arg {
            Some(name) => {
                run = walk_named(log, around, run, name, &keyword.value)?;
                count += 1;
            }
            None => {
                let closed = close_map(log, maps, count, run)?;
                maps = walk_behind(log, around, closed, &keyword.value)?;
                count = 0;
                run = Vec::new(log.alloc);
            }
        }
    }
    close_map(log, maps, count, run)
}

/// Gets a value, and puts it with its name after others.
#[cycle(walk)]
pub(crate) fn walk_named(
    log: &mut Log<'_>,
    around: Around,
    mut run: Vec<StepValue>,
    name: &Text,
    expr: &Expr,
) -> Result<Vec<StepValue>, Halt>
    ensures { Gets (λ v. values_of v.items) result (world_of log.new) (get_named (values_of run.items) name.now (walk_expr around (expr_tree expr.now)) (world_of log.old)) }
{
    let value = walk_expression(log, around, expr)?;
    push(&mut run, text(log.alloc, name)?)?;
    push(&mut run, value)?;
    Ok(run)
}
