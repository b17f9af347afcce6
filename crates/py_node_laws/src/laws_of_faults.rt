//! Laws of the faults of nodes and of trees. Their bodies do nothing.
ghost use Rattle.py_node_laws.specs.NodeFaults.{BodiesEnd, DeletesEnd, ExprsEnd, StatementsEnd, TargetsEnd, TestsEnd};
ghost use Rattle.py_node_laws.specs.GivenErrors.{NeverGiven, NeverOfBodies, NeverOfDeletes, NeverOfExprs, NeverOfStatements, NeverOfTargets};

/// Where the emission of a node of the right shapes is refused for anything but a missing cell, it is for the first of
/// the node's faults, with its location; where it is done there are none.
pub fn nodes_refused_first()
    ensures expressions { ExprsEnd }
    ensures tests { TestsEnd }
    ensures targets { TargetsEnd }
    ensures deletions { DeletesEnd }
    ensures statements { StatementsEnd }
    ensures bodies { BodiesEnd }
{}

/// No fault of any tree, and none of any node, has an error of async functions, or of a cell that is not there.
pub fn errors_that_never_come()
    ensures trees { NeverGiven }
    ensures expressions { NeverOfExprs }
    ensures targets { NeverOfTargets }
    ensures deletions { NeverOfDeletes }
    ensures statements { NeverOfStatements }
    ensures bodies { NeverOfBodies }
{}
