//! Laws of the walk. Their bodies do nothing.
ghost use Rattle.py_interp.specs.Laws.{TargetsWalk, TestsWalk, ValuesWalk};
ghost use Rattle.py_interp.specs.TreeLaws.{MeaningsWalk, TreesWalk};

/// What an expression means, shortened, is what its walk does.
pub fn values_walk()
    ensures { ValuesWalk }
{}

/// The same of an expression as a test.
pub fn tests_walk()
    ensures { TestsWalk }
{}

/// The same of an expression as a target.
pub fn targets_walk()
    ensures { TargetsWalk }
{}

/// What a tree means, however a run sees children, names and cells, is told, shortened, as the run of the tree.
pub fn trees_walk()
    ensures { TreesWalk }
{}

/// The same of what a tree means in the plain view.
pub fn meanings_walk()
    ensures { MeaningsWalk }
{}
