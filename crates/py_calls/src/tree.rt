//! What is asked of a tree: how deep it nests, how large it is, which shape is wrong, and the text of an annotation.

pub use py_annotation_text::{TextError, annotation_text};
pub use py_limits::{
    depth_of_body, depth_of_expr, depth_of_tree, size_of_body, size_of_expr, size_of_tree,
};
pub use py_shapes::{valid, valid_body, valid_expr};
