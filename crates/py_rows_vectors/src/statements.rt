use crate::fields::{
    Field, Items, arguments, expr, exprs, keywords, optional, optional_text, stmts, text,
};
use crate::row::{Placed, Row};
use crate::words::operator;
use py_tree::{
    Alias, ExceptHandler, List, MatchCase, Names, Stmt, StmtAsyncFunctionDef, StmtClassDef,
    StmtFunctionDef, TypeParam, WithItem,
};
use std::alloc::{AllocError, Global};

fn aliases<'a>(names: &'a List<Alias>) -> Field<'a> {
    Field::Array(Items::Aliases(names.as_slice()))
}

fn cases<'a>(items: &'a List<MatchCase>) -> Field<'a> {
    Field::Array(Items::MatchCases(items.as_slice()))
}

fn handlers<'a>(items: &'a List<ExceptHandler>) -> Field<'a> {
    Field::Array(Items::Handlers(items.as_slice()))
}

fn names<'a>(items: &'a Names) -> Field<'a> {
    Field::Array(Items::Names(items.as_slice()))
}

fn params<'a>(items: &'a List<TypeParam>) -> Field<'a> {
    Field::Array(Items::TypeParams(items.as_slice()))
}

fn with_items<'a>(items: &'a List<WithItem>) -> Field<'a> {
    Field::Array(Items::WithItems(items.as_slice()))
}

/// The row of a statement.
pub fn stmt_row<'a>(alloc: Global, s: &'a Stmt) -> Result<Row<'a>, AllocError> {
    let at = s.location();
    let of = Placed { alloc, at };
    match s {
        Stmt::FunctionDef(s) => function_row(of, s),
        Stmt::AsyncFunctionDef(s) => async_function_row(of, s),
        Stmt::ClassDef(s) => class_row(of, s),
        Stmt::Return(s) => of.row("Return", &[optional(&s.value)]),
        Stmt::Delete(s) => of.row("Delete", &[exprs(&s.targets)]),
        Stmt::Assign(s) => of.row("Assign", &[exprs(&s.targets), expr(&s.value)]),
        Stmt::TypeAlias(s) => of.row(
            "TypeAlias",
            &[expr(&s.name), params(&s.type_params), expr(&s.value)],
        ),
        Stmt::AugAssign(s) => of.row(
            "AugAssign",
            &[expr(&s.target), operator(s.op), expr(&s.value)],
        ),
        Stmt::AnnAssign(s) => of.row(
            "AnnAssign",
            &[
                expr(&s.target),
                expr(&s.annotation),
                optional(&s.value),
                Field::Flag(s.simple),
            ],
        ),
        Stmt::For(s) => of.row(
            "For",
            &[
                expr(&s.target),
                expr(&s.iter),
                stmts(&s.body),
                stmts(&s.orelse),
            ],
        ),
        Stmt::AsyncFor(s) => of.row(
            "AsyncFor",
            &[
                expr(&s.target),
                expr(&s.iter),
                stmts(&s.body),
                stmts(&s.orelse),
            ],
        ),
        Stmt::While(s) => of.row("While", &[expr(&s.test), stmts(&s.body), stmts(&s.orelse)]),
        Stmt::If(s) => of.row("If", &[expr(&s.test), stmts(&s.body), stmts(&s.orelse)]),
        Stmt::With(s) => of.row("With", &[with_items(&s.items), stmts(&s.body)]),
        Stmt::AsyncWith(s) => of.row("AsyncWith", &[with_items(&s.items), stmts(&s.body)]),
        Stmt::Match(s) => of.row("Match", &[expr(&s.subject), cases(&s.cases)]),
        Stmt::Raise(s) => of.row("Raise", &[optional(&s.exc), optional(&s.cause)]),
        Stmt::Try(s) => of.row(
            "Try",
            &[
                stmts(&s.body),
                handlers(&s.handlers),
                stmts(&s.orelse),
                stmts(&s.finalbody),
            ],
        ),
        Stmt::TryStar(s) => of.row(
            "TryStar",
            &[
                stmts(&s.body),
                handlers(&s.handlers),
                stmts(&s.orelse),
                stmts(&s.finalbody),
            ],
        ),
        Stmt::Assert(s) => of.row("Assert", &[expr(&s.test), optional(&s.msg)]),
        Stmt::Import(s) => of.row("Import", &[aliases(&s.names)]),
        Stmt::ImportFrom(s) => of.row(
            "ImportFrom",
            &[
                optional_text(&s.module),
                aliases(&s.names),
                Field::Number(s.level),
            ],
        ),
        Stmt::Global(s) => of.row("Global", &[names(&s.names)]),
        Stmt::Nonlocal(s) => of.row("Nonlocal", &[names(&s.names)]),
        Stmt::Expr(s) => of.row("Expr", &[expr(&s.value)]),
        Stmt::Pass(_) => of.row("Pass", &[]),
        Stmt::Break(_) => of.row("Break", &[]),
        Stmt::Continue(_) => of.row("Continue", &[]),
    }
}

fn function_row<'a>(of: Placed, s: &'a StmtFunctionDef) -> Result<Row<'a>, AllocError> {
    let fields = [
        text(&s.name),
        arguments(&s.args),
        stmts(&s.body),
        exprs(&s.decorator_list),
        optional(&s.returns),
        params(&s.type_params),
    ];
    of.row("FunctionDef", &fields)
}

fn async_function_row<'a>(of: Placed, s: &'a StmtAsyncFunctionDef) -> Result<Row<'a>, AllocError> {
    let fields = [
        text(&s.name),
        arguments(&s.args),
        stmts(&s.body),
        exprs(&s.decorator_list),
        optional(&s.returns),
        params(&s.type_params),
    ];
    of.row("AsyncFunctionDef", &fields)
}

fn class_row<'a>(of: Placed, s: &'a StmtClassDef) -> Result<Row<'a>, AllocError> {
    let fields = [
        text(&s.name),
        exprs(&s.bases),
        keywords(&s.keywords),
        stmts(&s.body),
        exprs(&s.decorator_list),
        params(&s.type_params),
    ];
    of.row("ClassDef", &fields)
}
