use crate::words::cmp_op;
use py_tree::{
    Alias, Arg, ArgWithDefault, Arguments, CmpOp, Comprehension, Constant, ExceptHandler, Expr,
    Keyword, List, MatchCase, Stmt, Text, TypeParam, WithItem,
};

/// What has a row of its own.
#[derive(Clone, Copy)]
pub enum Node<'a> {
    Alias(&'a Alias),
    Arg(&'a Arg),
    ArgWithDefault(&'a ArgWithDefault),
    Arguments(&'a Arguments),
    Clause(&'a Comprehension),
    Constant(&'a Constant),
    Expr(&'a Expr),
    Handler(&'a ExceptHandler),
    Keyword(&'a Keyword),
    MatchCase(&'a MatchCase),
    Stmt(&'a Stmt),
    TypeParam(&'a TypeParam),
    WithItem(&'a WithItem),
}

/// What an array in a row holds.
#[derive(Clone, Copy)]
pub enum Items<'a> {
    Aliases(&'a [Alias]),
    Args(&'a [ArgWithDefault]),
    Clauses(&'a [Comprehension]),
    CmpOps(&'a [CmpOp]),
    Constants(&'a [Constant]),
    Exprs(&'a [Expr]),
    Handlers(&'a [ExceptHandler]),
    Keys(&'a [Option<Expr>]),
    Keywords(&'a [Keyword]),
    MatchCases(&'a [MatchCase]),
    Names(&'a [Text]),
    Stmts(&'a [Stmt]),
    TypeParams(&'a [TypeParam]),
    WithItems(&'a [WithItem]),
}

/// What stands in a row.
#[derive(Clone, Copy)]
pub enum Field<'a> {
    Null,
    Flag(bool),
    Number(u32),
    Integer(i128),
    Bytes(&'a [u8]),
    Text(&'a str),
    Node(Node<'a>),
    Array(Items<'a>),
    /// What is left of an array, from this item on.
    Rest(Items<'a>, usize),
}

impl<'a> Items<'a> {
    /// The item at this index, None after the last.
    pub fn get(self, i: usize) -> Option<Field<'a>> {
        match self {
            Items::Aliases(items) => Some(Field::Node(Node::Alias(items.get(i)?))),
            Items::Args(items) => Some(Field::Node(Node::ArgWithDefault(items.get(i)?))),
            Items::Clauses(items) => Some(Field::Node(Node::Clause(items.get(i)?))),
            Items::CmpOps(items) => Some(cmp_op(*items.get(i)?)),
            Items::Constants(items) => Some(Field::Node(Node::Constant(items.get(i)?))),
            Items::Exprs(items) => Some(expr(items.get(i)?)),
            Items::Handlers(items) => Some(Field::Node(Node::Handler(items.get(i)?))),
            Items::Keys(items) => Some(key(items.get(i)?)),
            Items::Keywords(items) => Some(Field::Node(Node::Keyword(items.get(i)?))),
            Items::MatchCases(items) => Some(Field::Node(Node::MatchCase(items.get(i)?))),
            Items::Names(items) => Some(text(items.get(i)?)),
            Items::Stmts(items) => Some(Field::Node(Node::Stmt(items.get(i)?))),
            Items::TypeParams(items) => Some(Field::Node(Node::TypeParam(items.get(i)?))),
            Items::WithItems(items) => Some(Field::Node(Node::WithItem(items.get(i)?))),
        }
    }
}

pub fn text<'a>(value: &'a Text) -> Field<'a> {
    Field::Text(value.as_str())
}

/// A text that may be missing.
pub fn optional_text<'a>(value: &'a Option<Text>) -> Field<'a> {
    match value {
        Some(it) => text(it),
        None => Field::Null,
    }
}

pub fn expr<'a>(value: &'a Expr) -> Field<'a> {
    Field::Node(Node::Expr(value))
}

/// An expression that may be missing.
pub fn optional<'a>(value: &'a Option<Box<Expr>>) -> Field<'a> {
    match value {
        Some(e) => expr(e),
        None => Field::Null,
    }
}

/// A key of a dict.
fn key<'a>(value: &'a Option<Expr>) -> Field<'a> {
    match value {
        Some(e) => expr(e),
        None => Field::Null,
    }
}

pub fn exprs<'a>(items: &'a List<Expr>) -> Field<'a> {
    Field::Array(Items::Exprs(items.as_slice()))
}

pub fn stmts<'a>(items: &'a List<Stmt>) -> Field<'a> {
    Field::Array(Items::Stmts(items.as_slice()))
}

pub fn arguments<'a>(value: &'a Arguments) -> Field<'a> {
    Field::Node(Node::Arguments(value))
}

pub fn keywords<'a>(items: &'a List<Keyword>) -> Field<'a> {
    Field::Array(Items::Keywords(items.as_slice()))
}
