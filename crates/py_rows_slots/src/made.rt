//! The sorts of nodes that rows make.
ghost use Rattle.py_base.specs.Literal.{Literal};
ghost use Rattle.py_tree.specs.Tree as tree;
ghost use Rattle.py_tree.specs.View.{arg, arguments, expr_tree, literal_of, stmt_tree, type_param_tree};
ghost use Rattle.py_tree.specs.declared.statements.Alias.{Alias as Named};
ghost use Rattle.py_rows_slots.specs.Lists.{Clause, Default, Handler, Item, Keyword as Argument, case_view, comprehension_view, default_view, handler_view, item_view, keyword_view};

use py_tree::{
    Alias, Arg, ArgWithDefault, Arguments, Comprehension, Constant, ExceptHandler, Expr, Keyword,
    MatchCase, Stmt, TypeParam, WithItem,
};

/// A node that a row makes.
pub trait Made {
    ghost Tree: { Type 0 };

    ghost seen: { Self → Tree };
}

impl Made for Stmt {
    ghost Tree = { tree.Stmt };

    ghost seen = { stmt_tree };
}

impl Made for Expr {
    ghost Tree = { tree.Expr };

    ghost seen = { expr_tree };
}

impl Made for Constant {
    ghost Tree = { Literal };

    ghost seen = { literal_of };
}

impl Made for TypeParam {
    ghost Tree = { tree.TypeParam };

    ghost seen = { type_param_tree };
}

impl Made for Arguments {
    ghost Tree = { tree.Arguments };

    ghost seen = { arguments expr_tree };
}

impl Made for ArgWithDefault {
    ghost Tree = { Default };

    ghost seen = { default_view };
}

impl Made for Arg {
    ghost Tree = { tree.Arg };

    ghost seen = { arg expr_tree };
}

impl Made for Keyword {
    ghost Tree = { Argument };

    ghost seen = { keyword_view };
}

impl Made for Alias {
    ghost Tree = { Named };

    ghost seen = { λ a. a };
}

impl Made for WithItem {
    ghost Tree = { Item };

    ghost seen = { item_view };
}

impl Made for ExceptHandler {
    ghost Tree = { Handler };

    ghost seen = { handler_view };
}

impl Made for Comprehension {
    ghost Tree = { Clause };

    ghost seen = { comprehension_view };
}

impl Made for MatchCase {
    ghost Tree = { tree.Stmts };

    ghost seen = { case_view };
}
