//! Which fields each kind has.
ghost use Rattle.std.specs.Prelude.{◌≡◌};
ghost use Rattle.py_rows_fields.specs.Table.{fields_of, mod_fields, stmt_fields, expr_fields, constant_fields, type_param_fields};

use crate::kinds::{ConstantKind, ExprKind, Kind, ModKind, Sort, StmtKind, TypeParamKind};

/// What a field of a row holds. `Sort` says what the rows that it names have to be.
#[derive(Clone, Copy)]
pub enum Field {
    /// The number of a row.
    Node(Sort),
    /// The number of a row, or null.
    Maybe(Sort),
    /// An array of the numbers of rows.
    Nodes(Sort),
    /// An array of the numbers of rows and of nulls.
    MaybeNodes(Sort),
    /// It names no row.
    Plain(Plain),
}

/// What a field holds that names no row.
#[derive(Clone, Copy)]
pub enum Plain {
    /// A text.
    Text,
    /// A text, or null.
    MaybeText,
    /// An array of texts.
    Texts,
    /// True or false.
    Truth,
    /// A whole number below 2^32.
    Level,
    /// The operator of a `BoolOp`.
    BoolOperator,
    /// The operator of a `BinOp`.
    Operator,
    /// The operator of a `UnaryOp`.
    UnaryOperator,
    /// An array of the operators of a `Compare`.
    Comparisons,
    /// The conversion of a `FormattedValue`.
    Conversion,
}

/// The fields of a kind, in order.
pub(crate) fn fields_of(kind: Kind) -> &'static [Field]
    ensures { result.now ≡ fields_of kind }
{
    match kind {
        Kind::Mod(kind) => mod_fields(kind),
        Kind::Stmt(kind) => stmt_fields(kind),
        Kind::Expr(kind) => expr_fields(kind),
        Kind::Constant(kind) => constant_fields(kind),
        Kind::TypeParam(kind) => type_param_fields(kind),
        Kind::Arguments => &[
            Field::Nodes(Sort::ArgWithDefault),
            Field::Nodes(Sort::ArgWithDefault),
            Field::Maybe(Sort::Arg),
            Field::Nodes(Sort::ArgWithDefault),
            Field::Maybe(Sort::Arg),
        ],
        Kind::ArgWithDefault => &[Field::Node(Sort::Arg), Field::Maybe(Sort::Expr)],
        Kind::Arg => &[Field::Plain(Plain::Text), Field::Maybe(Sort::Expr)],
        Kind::Keyword => &[Field::Plain(Plain::MaybeText), Field::Node(Sort::Expr)],
        Kind::Alias => &[Field::Plain(Plain::Text), Field::Plain(Plain::MaybeText)],
        Kind::WithItem => &[Field::Node(Sort::Expr), Field::Maybe(Sort::Expr)],
        Kind::ExceptHandler => &[
            Field::Maybe(Sort::Expr),
            Field::Plain(Plain::MaybeText),
            Field::Nodes(Sort::Stmt),
        ],
        Kind::Comprehension => &[
            Field::Node(Sort::Expr),
            Field::Node(Sort::Expr),
            Field::Nodes(Sort::Expr),
            Field::Plain(Plain::Truth),
        ],
        Kind::MatchCase => &[Field::Nodes(Sort::Stmt)],
    }
}

fn mod_fields(kind: ModKind) -> &'static [Field]
    ensures { result.now ≡ mod_fields kind }
{
    match kind {
        ModKind::Module => &[Field::Nodes(Sort::Stmt)],
        ModKind::Interactive => &[Field::Nodes(Sort::Stmt)],
        ModKind::Expression => &[Field::Node(Sort::Expr)],
        ModKind::FunctionType => &[Field::Nodes(Sort::Expr), Field::Node(Sort::Expr)],
    }
}

fn stmt_fields(kind: StmtKind) -> &'static [Field]
    ensures { result.now ≡ stmt_fields kind }
{
    match kind {
        StmtKind::FunctionDef => &[
            Field::Plain(Plain::Text),
            Field::Node(Sort::Arguments),
            Field::Nodes(Sort::Stmt),
            Field::Nodes(Sort::Expr),
            Field::Maybe(Sort::Expr),
            Field::Nodes(Sort::TypeParam),
        ],
        StmtKind::AsyncFunctionDef => &[
            Field::Plain(Plain::Text),
            Field::Node(Sort::Arguments),
            Field::Nodes(Sort::Stmt),
            Field::Nodes(Sort::Expr),
            Field::Maybe(Sort::Expr),
            Field::Nodes(Sort::TypeParam),
        ],
        StmtKind::ClassDef => &[
            Field::Plain(Plain::Text),
            Field::Nodes(Sort::Expr),
            Field::Nodes(Sort::Keyword),
            Field::Nodes(Sort::Stmt),
            Field::Nodes(Sort::Expr),
            Field::Nodes(Sort::TypeParam),
        ],
        StmtKind::Return => &[Field::Maybe(Sort::Expr)],
        StmtKind::Delete => &[Field::Nodes(Sort::Expr)],
        StmtKind::Assign => &[Field::Nodes(Sort::Expr), Field::Node(Sort::Expr)],
        StmtKind::TypeAlias => &[
            Field::Node(Sort::Expr),
            Field::Nodes(Sort::TypeParam),
            Field::Node(Sort::Expr),
        ],
        StmtKind::AugAssign => &[
            Field::Node(Sort::Expr),
            Field::Plain(Plain::Operator),
            Field::Node(Sort::Expr),
        ],
        StmtKind::AnnAssign => &[
            Field::Node(Sort::Expr),
            Field::Node(Sort::Expr),
            Field::Maybe(Sort::Expr),
            Field::Plain(Plain::Truth),
        ],
        StmtKind::For => &[
            Field::Node(Sort::Expr),
            Field::Node(Sort::Expr),
            Field::Nodes(Sort::Stmt),
            Field::Nodes(Sort::Stmt),
        ],
        StmtKind::AsyncFor => &[
            Field::Node(Sort::Expr),
            Field::Node(Sort::Expr),
            Field::Nodes(Sort::Stmt),
            Field::Nodes(Sort::Stmt),
        ],
        StmtKind::While => &[
            Field::Node(Sort::Expr),
            Field::Nodes(Sort::Stmt),
            Field::Nodes(Sort::Stmt),
        ],
        StmtKind::If => &[
            Field::Node(Sort::Expr),
            Field::Nodes(Sort::Stmt),
            Field::Nodes(Sort::Stmt),
        ],
        StmtKind::With => &[Field::Nodes(Sort::WithItem), Field::Nodes(Sort::Stmt)],
        StmtKind::AsyncWith => &[Field::Nodes(Sort::WithItem), Field::Nodes(Sort::Stmt)],
        StmtKind::Match => &[Field::Node(Sort::Expr), Field::Nodes(Sort::MatchCase)],
        StmtKind::Raise => &[Field::Maybe(Sort::Expr), Field::Maybe(Sort::Expr)],
        StmtKind::Try => &[
            Field::Nodes(Sort::Stmt),
            Field::Nodes(Sort::ExceptHandler),
            Field::Nodes(Sort::Stmt),
            Field::Nodes(Sort::Stmt),
        ],
        StmtKind::TryStar => &[
            Field::Nodes(Sort::Stmt),
            Field::Nodes(Sort::ExceptHandler),
            Field::Nodes(Sort::Stmt),
            Field::Nodes(Sort::Stmt),
        ],
        StmtKind::Assert => &[Field::Node(Sort::Expr), Field::Maybe(Sort::Expr)],
        StmtKind::Import => &[Field::Nodes(Sort::Alias)],
        StmtKind::ImportFrom => &[
            Field::Plain(Plain::MaybeText),
            Field::Nodes(Sort::Alias),
            Field::Plain(Plain::Level),
        ],
        StmtKind::Global => &[Field::Plain(Plain::Texts)],
        StmtKind::Nonlocal => &[Field::Plain(Plain::Texts)],
        StmtKind::Expr => &[Field::Node(Sort::Expr)],
        StmtKind::Pass => &[],
        StmtKind::Break => &[],
        StmtKind::Continue => &[],
    }
}

fn expr_fields(kind: ExprKind) -> &'static [Field]
    ensures { result.now ≡ expr_fields kind }
{
    match kind {
        ExprKind::BoolOp => &[Field::Plain(Plain::BoolOperator), Field::Nodes(Sort::Expr)],
        ExprKind::NamedExpr => &[Field::Node(Sort::Expr), Field::Node(Sort::Expr)],
        ExprKind::BinOp => &[
            Field::Node(Sort::Expr),
            Field::Plain(Plain::Operator),
            Field::Node(Sort::Expr),
        ],
        ExprKind::UnaryOp => &[Field::Plain(Plain::UnaryOperator), Field::Node(Sort::Expr)],
        ExprKind::Lambda => &[Field::Node(Sort::Arguments), Field::Node(Sort::Expr)],
        ExprKind::IfExp => &[
            Field::Node(Sort::Expr),
            Field::Node(Sort::Expr),
            Field::Node(Sort::Expr),
        ],
        ExprKind::Dict => &[Field::MaybeNodes(Sort::Expr), Field::Nodes(Sort::Expr)],
        ExprKind::Set => &[Field::Nodes(Sort::Expr)],
        ExprKind::ListComp => &[Field::Node(Sort::Expr), Field::Nodes(Sort::Comprehension)],
        ExprKind::SetComp => &[Field::Node(Sort::Expr), Field::Nodes(Sort::Comprehension)],
        ExprKind::DictComp => &[
            Field::Node(Sort::Expr),
            Field::Node(Sort::Expr),
            Field::Nodes(Sort::Comprehension),
        ],
        ExprKind::GeneratorExp => &[Field::Node(Sort::Expr), Field::Nodes(Sort::Comprehension)],
        ExprKind::Await => &[Field::Node(Sort::Expr)],
        ExprKind::Yield => &[Field::Maybe(Sort::Expr)],
        ExprKind::YieldFrom => &[Field::Node(Sort::Expr)],
        ExprKind::Compare => &[
            Field::Node(Sort::Expr),
            Field::Plain(Plain::Comparisons),
            Field::Nodes(Sort::Expr),
        ],
        ExprKind::Call => &[
            Field::Node(Sort::Expr),
            Field::Nodes(Sort::Expr),
            Field::Nodes(Sort::Keyword),
        ],
        ExprKind::FormattedValue => &[
            Field::Node(Sort::Expr),
            Field::Plain(Plain::Conversion),
            Field::Maybe(Sort::Expr),
        ],
        ExprKind::JoinedStr => &[Field::Nodes(Sort::Expr)],
        ExprKind::Constant => &[Field::Node(Sort::Constant)],
        ExprKind::Attribute => &[Field::Node(Sort::Expr), Field::Plain(Plain::Text)],
        ExprKind::Subscript => &[Field::Node(Sort::Expr), Field::Node(Sort::Expr)],
        ExprKind::Starred => &[Field::Node(Sort::Expr)],
        ExprKind::Name => &[Field::Plain(Plain::Text)],
        ExprKind::List => &[Field::Nodes(Sort::Expr)],
        ExprKind::Tuple => &[Field::Nodes(Sort::Expr)],
        ExprKind::Slice => &[
            Field::Maybe(Sort::Expr),
            Field::Maybe(Sort::Expr),
            Field::Maybe(Sort::Expr),
        ],
    }
}

fn constant_fields(kind: ConstantKind) -> &'static [Field]
    ensures { result.now ≡ constant_fields kind }
{
    match kind {
        ConstantKind::None => &[],
        ConstantKind::True => &[],
        ConstantKind::False => &[],
        ConstantKind::Ellipsis => &[],
        ConstantKind::Int => &[Field::Plain(Plain::Text)],
        ConstantKind::Str => &[Field::Plain(Plain::Text)],
        ConstantKind::Bytes => &[Field::Plain(Plain::Text)],
        ConstantKind::Tuple => &[Field::Nodes(Sort::Constant)],
    }
}

fn type_param_fields(kind: TypeParamKind) -> &'static [Field]
    ensures { result.now ≡ type_param_fields kind }
{
    match kind {
        TypeParamKind::TypeVar => &[Field::Plain(Plain::Text), Field::Maybe(Sort::Expr)],
        TypeParamKind::ParamSpec => &[Field::Plain(Plain::Text)],
        TypeParamKind::TypeVarTuple => &[Field::Plain(Plain::Text)],
    }
}
