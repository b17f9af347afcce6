//! The limits of trees.
/// The nesting that no accepted tree reaches, as `depth_of_tree` of py_limits gives it.
pub const NESTING_LIMIT: u32 = 1024;
/// The size that no accepted tree reaches, as `size_of_tree` of py_limits gives it.
pub const SIZE_LIMIT: u32 = 4_194_304;

/// What a tree has too much of.
#[derive(Clone, Copy, PartialEq, Eq, Debug)]
pub enum TreeLimit {
    /// Its size.
    Nodes,
    /// Its nesting.
    Depth,
}
