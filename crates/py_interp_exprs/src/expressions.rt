//! Expressions.
ghost use Rattle.std.specs.Prelude.{◌≡◌, []};
ghost use Rattle.py_tree.specs.View.{attribute_tree, bin_op_tree, expr_tree, exprs, formatted_value_tree, if_exp_tree, joined_str_tree, named_expr_tree, opt_box, subscript_tree, unary_op_tree, yield_from_tree, yield_tree};
ghost use Rattle.py_bytecode.specs.Objects as object;
ghost use Rattle.py_emission.specs.Texts.{texts_of};
ghost use Rattle.py_answers.specs.Log.{Gets, world_of};
ghost use Rattle.py_answers.specs.Told.{value_of};
ghost use Rattle.py_interp.specs.Doing.{get_or, iterator, joined_value};
ghost use Rattle.py_interp.specs.Walks.{all_walks, opt_walk, walk_expr};

use crate::calls::walk_call;
use crate::comparisons::walk_compare;
use crate::conditions::{walk_bool_op, walk_test};
use crate::dicts::walk_dict;
use crate::displays::{walk_display, walk_or_none, walk_slice};
use crate::elements::walk_all;
use crate::functions::{walk_comprehension, walk_lambda};
use crate::targets::walk_target;
use crate::texts::whole_text;
use py_answers::{Halt, Log, Operand, Operation, StepValue};
use py_bytecode::Instruction;
use py_interp::Around;
use py_interp::constants::{empty_text, literal, none};
use py_interp::names::name_value;
use py_interp::operands::copy_value;
use py_interp::operations::{bare, build, does_one, does_two, numbered};
use py_node_values::operators::{case_of, conversion_case_of, unary_case_of};
use py_tree::{
    Expr, ExprAttribute, ExprBinOp, ExprFormattedValue, ExprIfExp, ExprJoinedStr, ExprNamedExpr,
    ExprSubscript, ExprUnaryOp, ExprYield, ExprYieldFrom,
};

/// Gets the value of an expression.
///
/// # Errors
/// What ends the run, or OutOfMemory.
#[cycle(walk)]
#[tactic(auto, using(py_tree::proofs::View::trees))]
pub fn walk_expression(log: &mut Log<'_>, around: Around, expr: &Expr) -> Result<StepValue, Halt>
    ensures { Gets value_of result (world_of log.new) (walk_expr around (expr_tree expr.now) (world_of log.old)) }
{
    match expr {
        Expr::BoolOp(e) => walk_bool_op(log, around, e),
        Expr::NamedExpr(e) => walk_named_expr(log, around, e),
        Expr::BinOp(e) => walk_bin_op(log, around, e),
        Expr::UnaryOp(e) => walk_unary_op(log, around, e),
        Expr::Lambda(e) => walk_lambda(log, around, e),
        Expr::IfExp(e) => walk_if_exp(log, around, e),
        Expr::Dict(e) => walk_dict(log, around, e),
        Expr::Set(e) => walk_display(
            log,
            around,
            Instruction::BuildSet,
            Instruction::BuildSetUnpack,
            e.elts.as_slice(),
        ),
        Expr::ListComp(e) => walk_comprehension(log, around, "<listcomp>", e.generators.as_slice()),
        Expr::SetComp(e) => walk_comprehension(log, around, "<setcomp>", e.generators.as_slice()),
        Expr::DictComp(e) => walk_comprehension(log, around, "<dictcomp>", e.generators.as_slice()),
        Expr::GeneratorExp(e) => walk_comprehension(
            log,
            around,
            "<genexpr>",
            e.generators.as_slice(),
        ),
        Expr::Await(_) => Ok(none()),
        Expr::Yield(e) => walk_yield(log, around, e),
        Expr::YieldFrom(e) => walk_yield_from(log, around, e),
        Expr::Compare(e) => walk_compare(log, around, e),
        Expr::Call(e) => walk_call(log, around, e),
        Expr::FormattedValue(e) => walk_formatted_value(log, around, e),
        Expr::JoinedStr(e) => walk_joined_str(log, around, e),
        Expr::Constant(e) => literal(log.alloc, &e.value),
        Expr::Attribute(e) => walk_attribute(log, around, e),
        Expr::Subscript(e) => walk_subscript(log, around, e),
        Expr::Starred(e) => walk_expression(log, around, &e.value),
        Expr::Name(e) => name_value(log, around.level, &e.id),
        Expr::List(e) => walk_display(
            log,
            around,
            Instruction::BuildList,
            Instruction::BuildListUnpack,
            e.elts.as_slice(),
        ),
        Expr::Tuple(e) => walk_display(
            log,
            around,
            Instruction::BuildTuple,
            Instruction::BuildTupleUnpack,
            e.elts.as_slice(),
        ),
        Expr::Slice(e) => walk_slice(log, around, e),
    }
}

#[cycle(walk)]
fn walk_named_expr(log: &mut Log<'_>, around: Around, e: &ExprNamedExpr) -> Result<StepValue, Halt>
    ensures { Gets value_of result (world_of log.new) (walk_expr around (named_expr_tree e.now) (world_of log.old)) }
{
    let value = walk_expression(log, around, &e.value)?;
    let kept = copy_value(log.alloc, &value)?;
    walk_target(log, around, &e.target, value)?;
    Ok(kept)
}

#[cycle(walk)]
fn walk_bin_op(log: &mut Log<'_>, around: Around, e: &ExprBinOp) -> Result<StepValue, Halt>
    ensures { Gets value_of result (world_of log.new) (walk_expr around (bin_op_tree e.now) (world_of log.old)) }
{
    let left = walk_expression(log, around, &e.left)?;
    let right = walk_expression(log, around, &e.right)?;
    let operation = numbered(Instruction::BinaryOperation, case_of(e.op));
    does_two(log, operation, left, right)
}

#[cycle(walk)]
pub(crate) fn walk_unary_op(
    log: &mut Log<'_>,
    around: Around,
    e: &ExprUnaryOp,
) -> Result<StepValue, Halt>
    ensures { Gets value_of result (world_of log.new) (walk_expr around (unary_op_tree e.now) (world_of log.old)) }
{
    let operand = walk_expression(log, around, &e.operand)?;
    let operation = numbered(Instruction::UnaryOperation, unary_case_of(e.op));
    does_one(log, operation, operand)
}

#[cycle(walk)]
fn walk_if_exp(log: &mut Log<'_>, around: Around, e: &ExprIfExp) -> Result<StepValue, Halt>
    ensures { Gets value_of result (world_of log.new) (walk_expr around (if_exp_tree e.now) (world_of log.old)) }
{
    if walk_test(log, around, &e.test)? {
        walk_expression(log, around, &e.body)
    } else {
        walk_expression(log, around, &e.orelse)
    }
}

#[cycle(walk)]
fn walk_yield(log: &mut Log<'_>, around: Around, e: &ExprYield) -> Result<StepValue, Halt>
    ensures { Gets value_of result (world_of log.new) (walk_expr around (yield_tree e.now) (world_of log.old)) }
{
    let value = walk_or_none(log, around, &e.value)?;
    does_one(log, bare(Instruction::YieldValue), value)
}

#[cycle(walk)]
fn walk_yield_from(log: &mut Log<'_>, around: Around, e: &ExprYieldFrom) -> Result<StepValue, Halt>
    ensures { Gets value_of result (world_of log.new) (walk_expr around (yield_from_tree e.now) (world_of log.old)) }
{
    let iterator = walk_iterator(log, around, &e.value)?;
    does_two(log, bare(Instruction::YieldFrom), iterator, none())
}

// Gets the iterator of a value.
#[cycle(walk)]
fn walk_iterator(log: &mut Log<'_>, around: Around, value: &Expr) -> Result<StepValue, Halt>
    ensures { Gets value_of result (world_of log.new) (iterator (walk_expr around (expr_tree value.now)) (world_of log.old)) }
{
    let value = walk_expression(log, around, value)?;
    does_one(log, bare(Instruction::GetIter), value)
}

#[cycle(walk)]
fn walk_formatted_value(
    log: &mut Log<'_>,
    around: Around,
    e: &ExprFormattedValue,
) -> Result<StepValue, Halt>
    ensures { Gets value_of result (world_of log.new) (walk_expr around (formatted_value_tree e.now) (world_of log.old)) }
{
    let value = walk_expression(log, around, &e.value)?;
    let spec = walk_format_spec(log, around, &e.format_spec)?;
    let operation = numbered(Instruction::FormatValue, conversion_case_of(e.conversion));
    does_two(log, operation, value, spec)
}

// How a value is formatted: the empty text where it is missing.
#[cycle(walk)]
fn walk_format_spec(
    log: &mut Log<'_>,
    around: Around,
    spec: &Option<Box<Expr>>,
) -> Result<StepValue, Halt>
    ensures { Gets value_of result (world_of log.new) (get_or (object.str []) (opt_walk around (opt_box expr_tree spec.now)) (world_of log.old)) }
{
    match spec {
        Some(spec) => walk_expression(log, around, spec),
        None => Ok(empty_text(log.alloc)),
    }
}

#[cycle(walk)]
fn walk_joined_str(log: &mut Log<'_>, around: Around, e: &ExprJoinedStr) -> Result<StepValue, Halt>
    ensures { Gets value_of result (world_of log.new) (walk_expr around (joined_str_tree e.now) (world_of log.old)) }
{
    walk_joined(log, around, e.values.as_slice())
}

// Gets the parts of an f-string joined, or where each is a text, the one text.
#[cycle(walk)]
fn walk_joined(log: &mut Log<'_>, around: Around, parts: &[Expr]) -> Result<StepValue, Halt>
    ensures { Gets value_of result (world_of log.new) (joined_value (texts_of (exprs expr_tree parts.now)) (all_walks around (exprs expr_tree parts.now)) (world_of log.old)) }
{
    if let Some(text) = whole_text(log.alloc, parts)? {
        return Ok(text);
    }
    let values = walk_all(log, around, parts)?;
    build(log, Instruction::BuildString, values)
}

#[cycle(walk)]
fn walk_attribute(log: &mut Log<'_>, around: Around, e: &ExprAttribute) -> Result<StepValue, Halt>
    ensures { Gets value_of result (world_of log.new) (walk_expr around (attribute_tree e.now) (world_of log.old)) }
{
    let value = walk_expression(log, around, &e.value)?;
    let operation = Operation {
        op: Instruction::LoadAttr,
        operand: Operand::Named(&e.attr),
    };
    does_one(log, operation, value)
}

#[cycle(walk)]
fn walk_subscript(log: &mut Log<'_>, around: Around, e: &ExprSubscript) -> Result<StepValue, Halt>
    ensures { Gets value_of result (world_of log.new) (walk_expr around (subscript_tree e.now) (world_of log.old)) }
{
    let value = walk_expression(log, around, &e.value)?;
    let index = walk_expression(log, around, &e.slice)?;
    does_two(log, bare(Instruction::Subscript), value, index)
}
