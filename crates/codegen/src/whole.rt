//! What is wrong with a tree as a whole: its nesting, its size, or a shape.
ghost use Rattle.py_tree.specs.Tree as tree;
ghost use Rattle.py_tree.specs.View.{expr_tree, mod_tree, stmts, stmt_tree};
ghost use Rattle.codegen.specs.Calls.{IsChecked};

use py_base::{CodegenErrorType, NESTING_LIMIT, SIZE_LIMIT};
use py_limits::{
    depth_of_body, depth_of_expr, depth_of_tree, size_of_body, size_of_expr, size_of_tree,
};
use py_shapes::{valid, valid_body, valid_expr};
use py_tree::{Expr, Mod, Mode, Stmts, TreeLimit};

/// The first fault of the tree as a whole.
pub(crate) fn tree_fault(ast: &Mod, mode: Mode) -> Option<CodegenErrorType>
    ensures { IsChecked result (mod_tree ast.now) mode }
{
    if depth_of_tree(ast, NESTING_LIMIT).is_none() {
        return Some(CodegenErrorType::TooLarge(TreeLimit::Depth));
    }
    if size_of_tree(ast, SIZE_LIMIT).is_none() {
        return Some(CodegenErrorType::TooLarge(TreeLimit::Nodes));
    }
    match valid(ast, mode) {
        Some(shape) => Some(CodegenErrorType::MalformedTree(shape)),
        None => None,
    }
}

/// That of the statements of a file.
pub(crate) fn body_fault(body: &Stmts) -> Option<CodegenErrorType>
    ensures { IsChecked result (tree.Module (stmts stmt_tree body.now)) Mode.Exec }
{
    if depth_of_body(body, NESTING_LIMIT).is_none() {
        return Some(CodegenErrorType::TooLarge(TreeLimit::Depth));
    }
    if size_of_body(body, SIZE_LIMIT).is_none() {
        return Some(CodegenErrorType::TooLarge(TreeLimit::Nodes));
    }
    match valid_body(body) {
        Some(shape) => Some(CodegenErrorType::MalformedTree(shape)),
        None => None,
    }
}

/// That of one expression, whose value is given.
pub(crate) fn expr_fault(expr: &Expr) -> Option<CodegenErrorType>
    ensures { IsChecked result (tree.Expression (expr_tree expr.now)) Mode.Eval }
{
    if depth_of_expr(expr, NESTING_LIMIT).is_none() {
        return Some(CodegenErrorType::TooLarge(TreeLimit::Depth));
    }
    if size_of_expr(expr, SIZE_LIMIT).is_none() {
        return Some(CodegenErrorType::TooLarge(TreeLimit::Nodes));
    }
    match valid_expr(expr) {
        Some(shape) => Some(CodegenErrorType::MalformedTree(shape)),
        None => None,
    }
}
