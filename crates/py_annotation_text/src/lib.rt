//! The texts of annotations whose evaluation is postponed.
#![tactic(auto)]

ghost use Rattle.std.specs.Prelude.{◌≡◌, ◌↔◌, Some, None, IfOk, IsErrOf, string_bytes};
ghost use Rattle.py_tree.specs.View.{expr_tree};
ghost use Rattle.py_annotation_text.specs.Annotation.{annotation};

mod constants;
mod displays;
mod error;
mod expressions;
mod f_strings;
mod lambdas;
mod lists;
mod operations;
mod signs;

pub use error::TextError;
use expressions::push_expr;
use f_strings::has_f_string;
use py_tree::Expr;
use std::alloc::Global;

/// The text of an annotation whose evaluation is postponed: the expression as Python writes it, in one spelling. Work
/// is linear in the tree and the text. The call goes as deep as the tree.
///
/// # Errors
/// `FString` exactly where an f-string, or a value of one, stands in the tree. There may be no memory for the text.
pub fn annotation_text(alloc: Global, expr: &Expr) -> Result<String, TextError>
    ensures text { IfOk result (λ t. annotation (expr_tree expr.now) ≡ Some (string_bytes t)) }
    ensures f_string { IsErrOf result TextError.FString ↔ (annotation (expr_tree expr.now) ≡ None) }
{
    if has_f_string(expr) {
        return Err(TextError::FString);
    }
    let mut text = String::new(alloc);
    push_expr(&mut text, expr, 2)?;
    Ok(text)
}
