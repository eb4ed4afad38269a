//! Laws of the definitions: what is true of every text. The functions do nothing when they are called; the contract of each is
//! a law, and a proof that needs the law calls the function.

ghost use Rattle.cil_sexpr.specs.Laws.{AlwaysEither, HasOneFault, HasOneTree, HasSlices, IsInOrder, NeverBoth};

/// A text has at most one tree.
pub fn one_tree()
    ensures { HasOneTree }
{}

/// A text has at most one first fault.
pub fn one_fault()
    ensures { HasOneFault }
{}

/// No text has both a tree and a fault.
pub fn never_both()
    ensures { NeverBoth }
{}

/// Every text has a tree or a fault.
pub fn always_either()
    ensures { AlwaysEither }
{}

/// The bytes of each word and each string of a tree are those of the text at its position.
pub fn slices()
    ensures { HasSlices }
{}

/// The nodes of a tree are one after another in the text, each inside the list that contains it.
pub fn in_order()
    ensures { IsInOrder }
{}
