//! What holds of every table, named by contracts.
ghost use Rattle.bdd.specs.Laws.{OneEdge, InverseEdges, Fitting, SmallSizes};

/// Two edges with one function are one edge, and edges with inverse functions are each other's inverse.
pub fn canonical_edges()
    ensures same { OneEdge }
    ensures inverse { InverseEdges }
{}

/// A table whose nodes are all parts of some functions has no more nodes than those functions have parts, each counted
/// once.
pub fn nodes_are_counted()
    ensures { Fitting }
{}

/// An input has size 1, the XOR of two 2, and the majority of three 4.
pub fn small_sizes()
    ensures { SmallSizes }
{}
