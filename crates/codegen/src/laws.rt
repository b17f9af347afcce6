//! Laws of the compile calls. Their bodies do nothing.
ghost use Rattle.codegen.specs.Calls.{CompiledIsSealed, EqualTreesHaveEqualCode};

/// A code that a call answers is the one that what is emitted of its tree determines: its blocks are laid out in the least
/// widths, and its tables and its head are those of the emission.
pub fn compiled_is_sealed()
    ensures { CompiledIsSealed }
{}

/// Equal trees, paths, modes and levels give equal code, where two calls both answer Ok.
pub fn equal_trees_have_equal_code()
    ensures { EqualTreesHaveEqualCode }
{}
