//! Trees that nest too deep, which no rows give.

use codegen::CompileOpts;
use codegen::compile::compile_top;
use py_base::{CodegenErrorType, TreeLimit};
use py_tree::{
    Expr, ExprCall, ExprName, List, Mod, ModExpression, ModModule, Mode, SourceLocation, Stmt,
    StmtPass, StmtWith, Text, WithItem,
};
use std::alloc::{AllocError, Global};
use std::process::Abort;
use std::test::Fail;

fn name(alloc: Global, id: &str) -> Result<Expr, AllocError> {
    Ok(Expr::Name(ExprName {
        location: SourceLocation::default(),
        id: Text::from_string(String::from_str(alloc, id)?),
    }))
}

/// A name that is called so many times over, as `a()()()`.
fn called(alloc: Global, calls: u32) -> Result<Expr, AllocError> {
    let mut value = name(alloc, "a")?;
    for _ in 0..calls {
        value = Expr::Call(ExprCall {
            location: SourceLocation::default(),
            func: Box::new(alloc, value)?,
            args: List::new(alloc),
            keywords: List::new(alloc),
        });
    }
    Ok(value)
}

/// So many items of a `with`, as `a, a, a`.
fn with_items(alloc: Global, count: u32) -> Result<List<WithItem>, AllocError> {
    let mut items = Vec::new(alloc);
    for _ in 0..count {
        items.push(WithItem {
            context_expr: Box::new(alloc, name(alloc, "a")?)?,
            optional_vars: None,
        })?;
    }
    Ok(List::from_vec(items))
}

/// A body of this one statement.
fn only(alloc: Global, statement: Stmt) -> Result<List<Stmt>, AllocError> {
    let mut body = Vec::new(alloc);
    body.push(statement)?;
    Ok(List::from_vec(body))
}

/// A module of one `with` of so many items, around `pass`.
fn module_of_with(alloc: Global, count: u32) -> Result<Mod, AllocError> {
    let location = SourceLocation::default();
    let with = Stmt::With(StmtWith {
        location,
        items: with_items(alloc, count)?,
        body: only(alloc, Stmt::Pass(StmtPass { location }))?,
    });
    Ok(Mod::Module(ModModule {
        body: only(alloc, with)?,
    }))
}

/// The tree compiles, or is refused for its nesting.
fn compiles(
    rt: &(impl Abort + AllocGlobal),
    tree: &Mod,
    mode: Mode,
    is_compiled: bool,
) -> Result<(), Fail> {
    let alloc = rt.alloc();
    let opts = CompileOpts { optimize: 0 };
    let path = Text::from_string(String::from_str(alloc, "m.py")?);
    match compile_top(alloc, tree, path, mode, opts) {
        Ok(_) => assert!(rt; is_compiled),
        Err(error) => {
            let is_nesting = matches!(&error.error, CodegenErrorType::TooLarge(TreeLimit::Depth));
            assert!(rt; is_nesting && error.location.is_none());
            assert!(rt; !is_compiled);
        }
    }
    Ok(())
}

/// A name nests 2 deep in its program, and each call of it one more.
#[test]
fn refuses_what_nests_too_deep(rt: HostRuntime) -> Result<(), Fail> {
    let alloc = rt.alloc();
    for (calls, is_compiled) in [(1021, true), (1022, false)] {
        let tree = Mod::Expression(ModExpression {
            body: Box::new(alloc, called(alloc, calls)?)?,
        });
        compiles(&rt, &tree, Mode::Eval, is_compiled)?;
    }
    Ok(())
}

/// The body of a `with` nests as deep as there are items.
#[test]
fn refuses_a_with_of_too_many_items(rt: HostRuntime) -> Result<(), Fail> {
    for (count, is_compiled) in [(1020, true), (1021, false)] {
        let tree = module_of_with(rt.alloc(), count)?;
        compiles(&rt, &tree, Mode::Exec, is_compiled)?;
    }
    Ok(())
}
