use crate::expressions::expr_row;
use crate::fields::{Field, Items, Node, expr, exprs, optional, optional_text, stmts, text};
use crate::row::{Placed, Row, unplaced};
use crate::statements::stmt_row;
use py_tree::{Arg, ArgWithDefault, Arguments, Comprehension, Constant, List, Mod, TypeParam};
use std::alloc::{AllocError, Global};

/// The row of a program.
pub fn program_row<'a>(alloc: Global, tree: &'a Mod) -> Result<Row<'a>, AllocError> {
    match tree {
        Mod::Module(m) => unplaced(alloc, "Module", &[stmts(&m.body)]),
        Mod::Interactive(m) => unplaced(alloc, "Interactive", &[stmts(&m.body)]),
        Mod::Expression(m) => unplaced(alloc, "Expression", &[expr(&m.body)]),
        Mod::FunctionType(m) => {
            unplaced(
                alloc,
                "FunctionType",
                &[exprs(&m.argtypes), expr(&m.returns)],
            )
        }
    }
}

/// The row of a node of a program.
pub fn node_row<'a>(alloc: Global, node: Node<'a>) -> Result<Row<'a>, AllocError> {
    match node {
        Node::Alias(n) => unplaced(alloc, "Alias", &[text(&n.name), optional_text(&n.asname)]),
        Node::Arg(n) => arg_row(alloc, n),
        Node::ArgWithDefault(n) => unplaced(
            alloc,
            "ArgWithDefault",
            &[Field::Node(Node::Arg(&n.def)), optional(&n.default)],
        ),
        Node::Arguments(n) => arguments_row(alloc, n),
        Node::Clause(n) => clause_row(alloc, n),
        Node::Constant(n) => constant_row(alloc, n),
        Node::Expr(n) => expr_row(alloc, n),
        Node::Handler(n) => unplaced(
            alloc,
            "ExceptHandler",
            &[optional(&n.type_), optional_text(&n.name), stmts(&n.body)],
        ),
        Node::Keyword(n) => unplaced(alloc, "Keyword", &[optional_text(&n.arg), expr(&n.value)]),
        Node::MatchCase(n) => unplaced(alloc, "MatchCase", &[stmts(&n.body)]),
        Node::Stmt(n) => stmt_row(alloc, n),
        Node::TypeParam(n) => type_param_row(alloc, n),
        Node::WithItem(n) => unplaced(
            alloc,
            "WithItem",
            &[expr(&n.context_expr), optional(&n.optional_vars)],
        ),
    }
}

fn arg_row<'a>(alloc: Global, n: &'a Arg) -> Result<Row<'a>, AllocError> {
    let of = Placed {
        alloc,
        at: n.location,
    };
    of.row("Arg", &[text(&n.arg), optional(&n.annotation)])
}

fn clause_row<'a>(alloc: Global, n: &'a Comprehension) -> Result<Row<'a>, AllocError> {
    let fields = [
        expr(&n.target),
        expr(&n.iter),
        exprs(&n.ifs),
        Field::Flag(n.is_async),
    ];
    unplaced(alloc, "Comprehension", &fields)
}

fn params<'a>(items: &'a List<ArgWithDefault>) -> Field<'a> {
    Field::Array(Items::Args(items.as_slice()))
}

/// A parameter that may be missing.
fn param<'a>(value: &'a Option<Box<Arg>>) -> Field<'a> {
    match value {
        Some(n) => Field::Node(Node::Arg(n)),
        None => Field::Null,
    }
}

fn arguments_row<'a>(alloc: Global, n: &'a Arguments) -> Result<Row<'a>, AllocError> {
    let fields = [
        params(&n.posonlyargs),
        params(&n.args),
        param(&n.vararg),
        params(&n.kwonlyargs),
        param(&n.kwarg),
    ];
    unplaced(alloc, "Arguments", &fields)
}

fn type_param_row<'a>(alloc: Global, n: &'a TypeParam) -> Result<Row<'a>, AllocError> {
    let at = n.location();
    let of = Placed { alloc, at };
    match n {
        TypeParam::TypeVar(n) => of.row("TypeVar", &[text(&n.name), optional(&n.bound)]),
        TypeParam::ParamSpec(n) => of.row("ParamSpec", &[text(&n.name)]),
        TypeParam::TypeVarTuple(n) => of.row("TypeVarTuple", &[text(&n.name)]),
    }
}

fn constant_row<'a>(alloc: Global, value: &'a Constant) -> Result<Row<'a>, AllocError> {
    match value {
        Constant::None => unplaced(alloc, "none", &[]),
        Constant::Bool(true) => unplaced(alloc, "true", &[]),
        Constant::Bool(false) => unplaced(alloc, "false", &[]),
        Constant::Ellipsis => unplaced(alloc, "ellipsis", &[]),
        Constant::Int(number) => unplaced(alloc, "int", &[Field::Integer(*number)]),
        Constant::Str(value) => unplaced(alloc, "str", &[text(value)]),
        Constant::Bytes(bytes) => unplaced(alloc, "bytes", &[Field::Bytes(bytes.as_slice())]),
        Constant::Tuple(items) => unplaced(
            alloc,
            "tuple",
            &[Field::Array(Items::Constants(items.as_slice()))],
        ),
    }
}
