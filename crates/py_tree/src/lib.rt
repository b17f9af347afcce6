//! The syntax tree that the compiler reads: its kinds of nodes, and where each starts.
#![tactic(auto)]

mod arguments;
pub mod expressions;
pub mod modules;
mod python_name;
pub mod statements;

pub use expressions::{
    Arg, ArgWithDefault, Arguments, Comprehension, Constant, Expr, ExprAttribute, ExprAwait,
    ExprBinOp, ExprBoolOp, ExprCall, ExprCompare, ExprConstant, ExprDict, ExprDictComp,
    ExprFormattedValue, ExprGeneratorExp, ExprIfExp, ExprJoinedStr, ExprLambda, ExprList,
    ExprListComp, ExprName, ExprNamedExpr, ExprSet, ExprSetComp, ExprSlice, ExprStarred,
    ExprSubscript, ExprTuple, ExprUnaryOp, ExprYield, ExprYieldFrom, Exprs, Keyword,
};
pub use modules::{Mod, ModExpression, ModFunctionType, ModInteractive, ModModule, Mode};
pub use py_base::{
    BoolOp, CmpOp, ConversionFlag, List, LocatedError, Malformed, Names, OneIndexed, Operator,
    SourceLocation, Text, TreeLimit, UnaryOp,
};
pub use statements::{
    Alias, ExceptHandler, MatchCase, Stmt, StmtAnnAssign, StmtAssert, StmtAssign, StmtAsyncFor,
    StmtAsyncFunctionDef, StmtAsyncWith, StmtAugAssign, StmtBreak, StmtClassDef, StmtContinue,
    StmtDelete, StmtExpr, StmtFor, StmtFunctionDef, StmtGlobal, StmtIf, StmtImport, StmtImportFrom,
    StmtMatch, StmtNonlocal, StmtPass, StmtRaise, StmtReturn, StmtTry, StmtTryStar, StmtTypeAlias,
    StmtWhile, StmtWith, Stmts, TypeParam, TypeParamParamSpec, TypeParamTypeVar,
    TypeParamTypeVarTuple, WithItem,
};
