//! Laws of what trees mean. Their bodies do nothing.
ghost use Rattle.py_node_laws.specs.Levels.{LevelsAgree, LevelsRunAlike};

/// A tree without assertions, `__debug__` and docstrings means the same at every level.
pub fn levels_agree()
    ensures { LevelsAgree }
{}

/// Codes of such a tree at two levels, each of which agrees with what the tree means there, have the same plain runs.
pub fn levels_run_alike()
    ensures { LevelsRunAlike }
{}
