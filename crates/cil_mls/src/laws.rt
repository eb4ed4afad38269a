//! Laws of the definitions. The functions do nothing when they are called; the contract of each is a law, and a proof that needs
//! the law calls the function.

ghost use Rattle.cil_mls.specs.Laws.{DominanceIsTested, HasOneLevel, HasOneOrder, SameAreEqual, WritesTellApart};

/// Edges fix at most one order of the numbers below a count.
pub fn one_order()
    ensures { HasOneOrder }
{}

/// A level dominates another where the test of the definitions says so.
pub fn dominance_is_tested()
    ensures { DominanceIsTested }
{}

/// Levels with the same sensitivity and the same categories are equal.
pub fn same_are_equal()
    ensures { SameAreEqual }
{}

/// Sets of categories that write the same to a hasher are equal.
pub fn writes_tell_apart()
    ensures { WritesTellApart }
{}

/// A text is at most one level.
pub fn one_level()
    ensures { HasOneLevel }
{}
