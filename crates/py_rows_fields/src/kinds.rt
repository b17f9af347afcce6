//! The kinds of rows.
ghost use Rattle.std.specs.Prelude.{◌≡◌};
ghost use Rattle.py_rows_fields.specs.Kinds.{kind_of, kind_of_two, kind_of_three, kind_of_four, kind_of_five, kind_of_six, kind_of_seven, kind_of_eight, kind_of_nine, kind_of_ten, kind_of_eleven, kind_of_twelve, kind_of_thirteen, kind_of_fourteen, kind_of_sixteen};
ghost use Rattle.py_rows_fields.specs.Sorts.{sort_number, sort_of};

use crate::words::find_word;

/// A kind of row.
#[derive(Clone, Copy, Debug)]
pub enum Kind {
    Mod(ModKind),
    Stmt(StmtKind),
    Expr(ExprKind),
    Constant(ConstantKind),
    TypeParam(TypeParamKind),
    Arguments,
    ArgWithDefault,
    Arg,
    Keyword,
    Alias,
    WithItem,
    ExceptHandler,
    Comprehension,
    MatchCase,
}

/// A kind of program.
#[derive(Clone, Copy, Debug)]
pub enum ModKind {
    Module,
    Interactive,
    Expression,
    FunctionType,
}

/// A kind of statement.
#[derive(Clone, Copy, Debug)]
pub enum StmtKind {
    FunctionDef,
    AsyncFunctionDef,
    ClassDef,
    Return,
    Delete,
    Assign,
    TypeAlias,
    AugAssign,
    AnnAssign,
    For,
    AsyncFor,
    While,
    If,
    With,
    AsyncWith,
    Match,
    Raise,
    Try,
    TryStar,
    Assert,
    Import,
    ImportFrom,
    Global,
    Nonlocal,
    Expr,
    Pass,
    Break,
    Continue,
}

/// A kind of expression.
#[derive(Clone, Copy, Debug)]
pub enum ExprKind {
    BoolOp,
    NamedExpr,
    BinOp,
    UnaryOp,
    Lambda,
    IfExp,
    Dict,
    Set,
    ListComp,
    SetComp,
    DictComp,
    GeneratorExp,
    Await,
    Yield,
    YieldFrom,
    Compare,
    Call,
    FormattedValue,
    JoinedStr,
    Constant,
    Attribute,
    Subscript,
    Starred,
    Name,
    List,
    Tuple,
    Slice,
}

/// A kind of constant.
#[derive(Clone, Copy, Debug)]
pub enum ConstantKind {
    None,
    True,
    False,
    Ellipsis,
    Int,
    Str,
    Bytes,
    Tuple,
}

/// A kind of type parameter.
#[derive(Clone, Copy, Debug)]
pub enum TypeParamKind {
    TypeVar,
    ParamSpec,
    TypeVarTuple,
}

/// What a row may be named as.
#[derive(Clone, Copy, Debug)]
pub enum Sort {
    Mod,
    Stmt,
    Expr,
    Constant,
    TypeParam,
    Arguments,
    ArgWithDefault,
    Arg,
    Keyword,
    Alias,
    WithItem,
    ExceptHandler,
    Comprehension,
    MatchCase,
}

impl Sort {
    /// The sorts in order, from 0.
    pub(crate) fn number(self) -> u8
        ensures { result ≡ sort_number self }
    {
        self as u8
    }
}

impl Kind {
    /// What rows of the kind may be named as.
    pub fn sort(self) -> Sort
        ensures { result ≡ sort_of self }
    {
        match self {
            Kind::Mod(_) => Sort::Mod,
            Kind::Stmt(_) => Sort::Stmt,
            Kind::Expr(_) => Sort::Expr,
            Kind::Constant(_) => Sort::Constant,
            Kind::TypeParam(_) => Sort::TypeParam,
            Kind::Arguments => Sort::Arguments,
            Kind::ArgWithDefault => Sort::ArgWithDefault,
            Kind::Arg => Sort::Arg,
            Kind::Keyword => Sort::Keyword,
            Kind::Alias => Sort::Alias,
            Kind::WithItem => Sort::WithItem,
            Kind::ExceptHandler => Sort::ExceptHandler,
            Kind::Comprehension => Sort::Comprehension,
            Kind::MatchCase => Sort::MatchCase,
        }
    }
}

/// The kind that a word is. None exactly where it is the word of no kind.
pub fn kind_of(word: &str) -> Option<Kind>
    ensures { result ≡ kind_of word.now }
{
    let bytes = word.as_bytes();
    match bytes.len() {
        2 => kind_of_two(bytes),
        3 => kind_of_three(bytes),
        4 => kind_of_four(bytes),
        5 => kind_of_five(bytes),
        6 => kind_of_six(bytes),
        7 => kind_of_seven(bytes),
        8 => kind_of_eight(bytes),
        9 => kind_of_nine(bytes),
        10 => kind_of_ten(bytes),
        11 => kind_of_eleven(bytes),
        12 => kind_of_twelve(bytes),
        13 => kind_of_thirteen(bytes),
        14 => kind_of_fourteen(bytes),
        16 => kind_of_sixteen(bytes),
        _ => None,
    }
}

fn kind_of_two(word: &[u8]) -> Option<Kind>
    ensures { result ≡ kind_of_two word.now }
{
    find_word! { word;
        b"If" => Kind::Stmt(StmtKind::If),
    }
}

fn kind_of_three(word: &[u8]) -> Option<Kind>
    ensures { result ≡ kind_of_three word.now }
{
    find_word! { word;
        b"str" => Kind::Constant(ConstantKind::Str),
        b"Arg" => Kind::Arg,
        b"int" => Kind::Constant(ConstantKind::Int),
        b"Try" => Kind::Stmt(StmtKind::Try),
        b"For" => Kind::Stmt(StmtKind::For),
        b"Set" => Kind::Expr(ExprKind::Set),
    }
}

fn kind_of_four(word: &[u8]) -> Option<Kind>
    ensures { result ≡ kind_of_four word.now }
{
    find_word! { word;
        b"Name" => Kind::Expr(ExprKind::Name),
        b"Call" => Kind::Expr(ExprKind::Call),
        b"Expr" => Kind::Stmt(StmtKind::Expr),
        b"none" => Kind::Constant(ConstantKind::None),
        b"true" => Kind::Constant(ConstantKind::True),
        b"List" => Kind::Expr(ExprKind::List),
        b"Pass" => Kind::Stmt(StmtKind::Pass),
        b"Dict" => Kind::Expr(ExprKind::Dict),
        b"With" => Kind::Stmt(StmtKind::With),
    }
}

fn kind_of_five(word: &[u8]) -> Option<Kind>
    ensures { result ≡ kind_of_five word.now }
{
    find_word! { word;
        b"Tuple" => Kind::Expr(ExprKind::Tuple),
        b"BinOp" => Kind::Expr(ExprKind::BinOp),
        b"Raise" => Kind::Stmt(StmtKind::Raise),
        b"false" => Kind::Constant(ConstantKind::False),
        b"Alias" => Kind::Alias,
        b"Slice" => Kind::Expr(ExprKind::Slice),
        b"bytes" => Kind::Constant(ConstantKind::Bytes),
        b"While" => Kind::Stmt(StmtKind::While),
        b"Break" => Kind::Stmt(StmtKind::Break),
        b"Yield" => Kind::Expr(ExprKind::Yield),
        b"IfExp" => Kind::Expr(ExprKind::IfExp),
        b"Await" => Kind::Expr(ExprKind::Await),
        b"Match" => Kind::Stmt(StmtKind::Match),
        b"tuple" => Kind::Constant(ConstantKind::Tuple),
    }
}

fn kind_of_six(word: &[u8]) -> Option<Kind>
    ensures { result ≡ kind_of_six word.now }
{
    find_word! { word;
        b"Assign" => Kind::Stmt(StmtKind::Assign),
        b"Return" => Kind::Stmt(StmtKind::Return),
        b"BoolOp" => Kind::Expr(ExprKind::BoolOp),
        b"Import" => Kind::Stmt(StmtKind::Import),
        b"Delete" => Kind::Stmt(StmtKind::Delete),
        b"Assert" => Kind::Stmt(StmtKind::Assert),
        b"Lambda" => Kind::Expr(ExprKind::Lambda),
        b"Module" => Kind::Mod(ModKind::Module),
        b"Global" => Kind::Stmt(StmtKind::Global),
    }
}

fn kind_of_seven(word: &[u8]) -> Option<Kind>
    ensures { result ≡ kind_of_seven word.now }
{
    find_word! { word;
        b"Compare" => Kind::Expr(ExprKind::Compare),
        b"Keyword" => Kind::Keyword,
        b"UnaryOp" => Kind::Expr(ExprKind::UnaryOp),
        b"Starred" => Kind::Expr(ExprKind::Starred),
        b"TypeVar" => Kind::TypeParam(TypeParamKind::TypeVar),
        b"SetComp" => Kind::Expr(ExprKind::SetComp),
        b"TryStar" => Kind::Stmt(StmtKind::TryStar),
    }
}

fn kind_of_eight(word: &[u8]) -> Option<Kind>
    ensures { result ≡ kind_of_eight word.now }
{
    find_word! { word;
        b"Constant" => Kind::Expr(ExprKind::Constant),
        b"ClassDef" => Kind::Stmt(StmtKind::ClassDef),
        b"WithItem" => Kind::WithItem,
        b"Continue" => Kind::Stmt(StmtKind::Continue),
        b"ListComp" => Kind::Expr(ExprKind::ListComp),
        b"ellipsis" => Kind::Constant(ConstantKind::Ellipsis),
        b"DictComp" => Kind::Expr(ExprKind::DictComp),
        b"Nonlocal" => Kind::Stmt(StmtKind::Nonlocal),
        b"AsyncFor" => Kind::Stmt(StmtKind::AsyncFor),
    }
}

fn kind_of_nine(word: &[u8]) -> Option<Kind>
    ensures { result ≡ kind_of_nine word.now }
{
    find_word! { word;
        b"Attribute" => Kind::Expr(ExprKind::Attribute),
        b"Arguments" => Kind::Arguments,
        b"Subscript" => Kind::Expr(ExprKind::Subscript),
        b"JoinedStr" => Kind::Expr(ExprKind::JoinedStr),
        b"AugAssign" => Kind::Stmt(StmtKind::AugAssign),
        b"YieldFrom" => Kind::Expr(ExprKind::YieldFrom),
        b"NamedExpr" => Kind::Expr(ExprKind::NamedExpr),
        b"MatchCase" => Kind::MatchCase,
        b"TypeAlias" => Kind::Stmt(StmtKind::TypeAlias),
        b"AsyncWith" => Kind::Stmt(StmtKind::AsyncWith),
        b"AnnAssign" => Kind::Stmt(StmtKind::AnnAssign),
        b"ParamSpec" => Kind::TypeParam(TypeParamKind::ParamSpec),
    }
}

fn kind_of_ten(word: &[u8]) -> Option<Kind>
    ensures { result ≡ kind_of_ten word.now }
{
    find_word! { word;
        b"ImportFrom" => Kind::Stmt(StmtKind::ImportFrom),
        b"Expression" => Kind::Mod(ModKind::Expression),
    }
}

fn kind_of_eleven(word: &[u8]) -> Option<Kind>
    ensures { result ≡ kind_of_eleven word.now }
{
    find_word! { word;
        b"FunctionDef" => Kind::Stmt(StmtKind::FunctionDef),
        b"Interactive" => Kind::Mod(ModKind::Interactive),
    }
}

fn kind_of_twelve(word: &[u8]) -> Option<Kind>
    ensures { result ≡ kind_of_twelve word.now }
{
    find_word! { word;
        b"GeneratorExp" => Kind::Expr(ExprKind::GeneratorExp),
        b"FunctionType" => Kind::Mod(ModKind::FunctionType),
        b"TypeVarTuple" => Kind::TypeParam(TypeParamKind::TypeVarTuple),
    }
}

fn kind_of_thirteen(word: &[u8]) -> Option<Kind>
    ensures { result ≡ kind_of_thirteen word.now }
{
    find_word! { word;
        b"ExceptHandler" => Kind::ExceptHandler,
        b"Comprehension" => Kind::Comprehension,
    }
}

fn kind_of_fourteen(word: &[u8]) -> Option<Kind>
    ensures { result ≡ kind_of_fourteen word.now }
{
    find_word! { word;
        b"ArgWithDefault" => Kind::ArgWithDefault,
        b"FormattedValue" => Kind::Expr(ExprKind::FormattedValue),
    }
}

fn kind_of_sixteen(word: &[u8]) -> Option<Kind>
    ensures { result ≡ kind_of_sixteen word.now }
{
    find_word! { word;
        b"AsyncFunctionDef" => Kind::Stmt(StmtKind::AsyncFunctionDef),
    }
}
