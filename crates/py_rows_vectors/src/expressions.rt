use crate::fields::{Field, Items, Node, arguments, expr, exprs, keywords, optional, text};
use crate::row::{Placed, Row};
use crate::words::{bool_op, conversion, operator, unary_op};
use py_tree::{CmpOp, Comprehension, Expr, List};
use std::alloc::{AllocError, Global};

fn clauses<'a>(items: &'a List<Comprehension>) -> Field<'a> {
    Field::Array(Items::Clauses(items.as_slice()))
}

fn cmp_ops<'a>(items: &'a List<CmpOp>) -> Field<'a> {
    Field::Array(Items::CmpOps(items.as_slice()))
}

fn keys<'a>(items: &'a List<Option<Expr>>) -> Field<'a> {
    Field::Array(Items::Keys(items.as_slice()))
}

/// The row of an expression.
pub fn expr_row<'a>(alloc: Global, e: &'a Expr) -> Result<Row<'a>, AllocError> {
    let at = e.location();
    let of = Placed { alloc, at };
    match e {
        Expr::BoolOp(e) => of.row("BoolOp", &[bool_op(e.op), exprs(&e.values)]),
        Expr::NamedExpr(e) => of.row("NamedExpr", &[expr(&e.target), expr(&e.value)]),
        Expr::BinOp(e) => of.row("BinOp", &[expr(&e.left), operator(e.op), expr(&e.right)]),
        Expr::UnaryOp(e) => of.row("UnaryOp", &[unary_op(e.op), expr(&e.operand)]),
        Expr::Lambda(e) => of.row("Lambda", &[arguments(&e.args), expr(&e.body)]),
        Expr::IfExp(e) => of.row("IfExp", &[expr(&e.test), expr(&e.body), expr(&e.orelse)]),
        Expr::Dict(e) => of.row("Dict", &[keys(&e.keys), exprs(&e.values)]),
        Expr::Set(e) => of.row("Set", &[exprs(&e.elts)]),
        Expr::ListComp(e) => of.row("ListComp", &[expr(&e.elt), clauses(&e.generators)]),
        Expr::SetComp(e) => of.row("SetComp", &[expr(&e.elt), clauses(&e.generators)]),
        Expr::DictComp(e) => of.row(
            "DictComp",
            &[expr(&e.key), expr(&e.value), clauses(&e.generators)],
        ),
        Expr::GeneratorExp(e) => of.row("GeneratorExp", &[expr(&e.elt), clauses(&e.generators)]),
        Expr::Await(e) => of.row("Await", &[expr(&e.value)]),
        Expr::Yield(e) => of.row("Yield", &[optional(&e.value)]),
        Expr::YieldFrom(e) => of.row("YieldFrom", &[expr(&e.value)]),
        Expr::Compare(e) => of.row(
            "Compare",
            &[expr(&e.left), cmp_ops(&e.ops), exprs(&e.comparators)],
        ),
        Expr::Call(e) => of.row(
            "Call",
            &[expr(&e.func), exprs(&e.args), keywords(&e.keywords)],
        ),
        Expr::FormattedValue(e) => of.row(
            "FormattedValue",
            &[
                expr(&e.value),
                conversion(e.conversion),
                optional(&e.format_spec),
            ],
        ),
        Expr::JoinedStr(e) => of.row("JoinedStr", &[exprs(&e.values)]),
        Expr::Constant(e) => of.row("Constant", &[Field::Node(Node::Constant(&e.value))]),
        Expr::Attribute(e) => of.row("Attribute", &[expr(&e.value), text(&e.attr)]),
        Expr::Subscript(e) => of.row("Subscript", &[expr(&e.value), expr(&e.slice)]),
        Expr::Starred(e) => of.row("Starred", &[expr(&e.value)]),
        Expr::Name(e) => of.row("Name", &[text(&e.id)]),
        Expr::List(e) => of.row("List", &[exprs(&e.elts)]),
        Expr::Tuple(e) => of.row("Tuple", &[exprs(&e.elts)]),
        Expr::Slice(e) => of.row(
            "Slice",
            &[optional(&e.lower), optional(&e.upper), optional(&e.step)],
        ),
    }
}
