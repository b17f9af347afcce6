//! How deep a tree nests, how large it is, and its first wrong shape, each asked of the tree and of what it holds.

use py_base::NESTING_LIMIT;
use py_calls::tree::{
    depth_of_body, depth_of_expr, depth_of_tree, size_of_body, size_of_expr, size_of_tree, valid,
    valid_body, valid_expr,
};
use py_tree::{Malformed, Mod, Mode};
use std::alloc::{AllocError, Global};

/// The depth of what the tree holds.
fn depth_within(program: &Mod, limit: u32) -> Option<u32> {
    match program {
        Mod::Module(m) => depth_of_body(&m.body, limit),
        Mod::Expression(m) => depth_of_expr(&m.body, limit),
        _ => None,
    }
}

/// How deep the tree nests, and what it holds.
pub fn depths(alloc: Global, program: &Mod, limit: u32) -> Result<String, AllocError> {
    let whole = depth_of_tree(program, limit);
    let within = depth_within(program, limit);
    format!(in alloc; "{whole:?} {within:?}")
}

/// The size of a tree that does not nest too deep.
fn size_of_whole(program: &Mod, limit: u32) -> Option<u32> {
    depth_of_tree(program, NESTING_LIMIT)?;
    size_of_tree(program, limit)
}

/// The size of what such a tree holds.
fn size_within(program: &Mod, limit: u32) -> Option<u32> {
    match program {
        Mod::Module(m) => {
            depth_of_body(&m.body, NESTING_LIMIT)?;
            size_of_body(&m.body, limit)
        }
        Mod::Expression(m) => {
            depth_of_expr(&m.body, NESTING_LIMIT)?;
            size_of_expr(&m.body, limit)
        }
        _ => None,
    }
}

/// How large the tree is, and what it holds.
pub fn sizes(alloc: Global, program: &Mod, limit: u32) -> Result<String, AllocError> {
    let whole = size_of_whole(program, limit);
    let within = size_within(program, limit);
    format!(in alloc; "{whole:?} {within:?}")
}

/// The first wrong shape of a tree that does not nest too deep.
fn shape_of_whole(program: &Mod, mode: Mode) -> Option<Malformed> {
    depth_of_tree(program, NESTING_LIMIT)?;
    valid(program, mode)
}

/// The first wrong shape of what such a tree holds.
fn shape_within(program: &Mod) -> Option<Malformed> {
    match program {
        Mod::Module(m) => {
            depth_of_body(&m.body, NESTING_LIMIT)?;
            valid_body(&m.body)
        }
        Mod::Expression(m) => {
            depth_of_expr(&m.body, NESTING_LIMIT)?;
            valid_expr(&m.body)
        }
        _ => None,
    }
}

/// The first wrong shape of the tree, and of what it holds.
pub fn shapes(alloc: Global, program: &Mod, mode: Mode) -> Result<String, AllocError> {
    let whole = shape_of_whole(program, mode);
    let within = shape_within(program);
    format!(in alloc; "{whole:?} {within:?}")
}
