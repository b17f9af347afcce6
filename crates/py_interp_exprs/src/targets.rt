//! Targets.
ghost use Rattle.std.specs.Prelude.{◌≡◌, ◌<◌, ◌+◌, ◌*◌, ◌^◌, length, true, IfErr, IfOk};
ghost use Rattle.py_bytecode.specs.Values.{given_values};
ghost use Rattle.py_meaning.specs.ExprFaults.{as_elements};
ghost use Rattle.py_emission_parts.specs.Elements.{after_star, before_star};
ghost use Rattle.py_emission_parts.specs.TableParts.{counted_operation as with_count, unpack_operation};
ghost use Rattle.py_tree.specs.View.{attribute_tree, expr_tree, exprs, subscript_tree};
ghost use Rattle.py_answers.specs.Log.{Gets, operation_of, world_of};
ghost use Rattle.py_answers.specs.Told.{value_of};
ghost use Rattle.py_interp.specs.Doing.{put_each};
ghost use Rattle.py_interp.specs.Walks.{all_targets, target_walks, unpack_to, walk_target};
ghost use Rattle.py_interp_exprs.specs.Starred.{any_starred};

use crate::elements::{has_star, is_star};
use crate::expressions::walk_expression;
use py_answers::{Halt, Log, Operand, Operation, StepValue};
use py_base::List;
use py_bytecode::Instruction;
use py_interp::Around;
use py_interp::names::store;
use py_interp::operands::{one, three, two};
use py_interp::operations::{bare, counted, does_none};
use py_tree::{Expr, ExprAttribute, ExprSubscript};

/// Gives a value to an expression as a target.
///
/// # Errors
/// What ends the run, or OutOfMemory.
#[cycle(walk)]
#[tactic(auto, using(py_tree::proofs::View::trees))]
pub fn walk_target(
    log: &mut Log<'_>,
    around: Around,
    target: &Expr,
    value: StepValue,
) -> Result<(), Halt>
    ensures { Gets (λ u. u) result (world_of log.new) (walk_target around (expr_tree target.now) (value_of value) (world_of log.old)) }
{
    match target {
        Expr::Name(e) => store(log, &e.id, value),
        Expr::Attribute(e) => put_attribute(log, around, e, value),
        Expr::Subscript(e) => put_subscript(log, around, e, value),
        Expr::List(e) => unpack(log, around, e.elts.as_slice(), value),
        Expr::Tuple(e) => unpack(log, around, e.elts.as_slice(), value),
        _ => Ok(()),
    }
}

#[cycle(walk)]
fn put_attribute(
    log: &mut Log<'_>,
    around: Around,
    e: &ExprAttribute,
    value: StepValue,
) -> Result<(), Halt>
    ensures { Gets (λ u. u) result (world_of log.new) (walk_target around (attribute_tree e.now) (value_of value) (world_of log.old)) }
{
    let object = walk_expression(log, around, &e.value)?;
    let operands = two(log.alloc, value, object)?;
    let operation = Operation {
        op: Instruction::StoreAttr,
        operand: Operand::Named(&e.attr),
    };
    does_none(log, operation, operands)
}

#[cycle(walk)]
fn put_subscript(
    log: &mut Log<'_>,
    around: Around,
    e: &ExprSubscript,
    value: StepValue,
) -> Result<(), Halt>
    ensures { Gets (λ u. u) result (world_of log.new) (walk_target around (subscript_tree e.now) (value_of value) (world_of log.old)) }
{
    let object = walk_expression(log, around, &e.value)?;
    let index = walk_expression(log, around, &e.slice)?;
    let operands = three(log.alloc, value, object, index)?;
    does_none(log, bare(Instruction::StoreSubscript), operands)
}

// Unpacks a value to as many targets.
#[cycle(walk)]
fn unpack(log: &mut Log<'_>, around: Around, elts: &[Expr], value: StepValue) -> Result<(), Halt>
    ensures { Gets (λ u. u) result (world_of log.new) (unpack_to (exprs expr_tree elts.now) (all_targets around (exprs expr_tree elts.now)) (value_of value) (world_of log.old)) }
{
    let operation = unpacking(elts)?;
    let operands = List::from_vec(one(log.alloc, value)?);
    let Ok(count) = u32::try_from(elts.len()) else {
        return Err(Halt::OutOfMemory);
    };
    let answer = log.operate(operation, operands, Some(count))?;
    put_each(log, around, elts, answer)
}

// Gives the values of an answer each to a target, of which there are no more than 32 bits count.
#[cycle(walk)]
fn put_each(log: &mut Log<'_>, around: Around, elts: &[Expr], answer: u32) -> Result<(), Halt>
    requires { length elts.now < 2 ^ 32 }
    ensures { Gets (λ u. u) result (world_of log.new) (put_each (all_targets around (exprs expr_tree elts.now)) (given_values (length elts.now) answer 0) (world_of log.old)) }
{
    let mut index = 0;
    for elt in elts {
        put_element(log, around, elt, StepValue::Given { answer, index })?;
        index += 1;
    }
    Ok(())
}

// Gives a value to a target among others, which may be starred.
#[cycle(walk)]
#[tactic(auto, using(py_tree::proofs::View::trees))]
fn put_element(log: &mut Log<'_>, around: Around, elt: &Expr, value: StepValue) -> Result<(), Halt>
    ensures { Gets (λ u. u) result (world_of log.new) ((target_walks around (expr_tree elt.now)).element (value_of value) (world_of log.old)) }
{
    match elt {
        Expr::Starred(e) => walk_target(log, around, &e.value, value),
        _ => walk_target(log, around, elt, value),
    }
}

// How values are unpacked to targets: to as many, or with a list of those that are left over.
fn unpacking(elts: &[Expr]) -> Result<Operation<'static>, Halt>
    ensures ok { IfOk result (λ o. operation_of o ≡ unpack_operation (as_elements (exprs expr_tree elts.now))) }
    ensures err { IfErr result (λ h. h ≡ Halt.OutOfMemory) }
{
    if has_star(elts) {
        unpacking_around(before_star(elts), after_star(elts))
    } else {
        counted(Instruction::UnpackSequence, elts.len())
    }
}

// How values are unpacked to so many targets before a star and so many after it.
fn unpacking_around(before: usize, after: usize) -> Result<Operation<'static>, Halt>
    ensures ok { IfOk result (λ o. operation_of o ≡ with_count Instruction.UnpackEx (before + 256 * after)) }
    ensures err { IfErr result (λ h. h ≡ Halt.OutOfMemory) }
{
    let Some(aside) = after.checked_mul(256) else {
        return Err(Halt::OutOfMemory);
    };
    let Some(count) = aside.checked_add(before) else {
        return Err(Halt::OutOfMemory);
    };
    counted(Instruction::UnpackEx, count)
}

// How many stand before the first that is starred.
fn before_star(elts: &[Expr]) -> usize
    ensures { result ≡ before_star (as_elements (exprs expr_tree elts.now)) }
{
    let mut before = 0;
    for elt in elts {
        if is_star(elt) {
            return before;
        }
        before += 1;
    }
    before
}

// How many stand after the first that is starred.
fn after_star(elts: &[Expr]) -> usize
    requires { any_starred (exprs expr_tree elts.now) ≡ true }
    ensures { result ≡ after_star (as_elements (exprs expr_tree elts.now)) }
{
    elts.len() - before_star(elts) - 1
}
