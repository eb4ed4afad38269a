//! Laws of the definitions: what is true of every graph. The functions do nothing when they are called; the contract of each is
//! a law, and a proof that needs the law calls the function.

ghost use Rattle.cil_settle.specs.Laws.{FlowsAlongPaths, HasOneSet, IsBounded, IsLeast};

/// What goes out is the least set that has each node which has lost what it needs by the nodes of the set.
pub fn least()
    ensures { IsLeast }
{}

/// Two settled orders of one graph have the same nodes, and took as many look-ups.
pub fn one_set()
    ensures { HasOneSet }
{}

/// There are no more look-ups than counted edges.
pub fn bounded()
    ensures { IsBounded }
{}

/// The bits that flow to a node are those that it starts with, and those of every node from which a path leads to it.
pub fn along_paths()
    ensures { FlowsAlongPaths }
{}
