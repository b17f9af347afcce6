//! Laws of the scopes that trees mean. Their bodies do nothing.
ghost use Rattle.py_scope_proof.specs.Own.{EachIsItsOwn};

/// Each scope within what a tree means, at every depth, is that of the node which stands at the place of its number, and stands in the scope that this node stands in.
pub fn each_scope_is_its_own()
    ensures { EachIsItsOwn }
{}
