//! Laws of the definitions. The functions do nothing when they are called; the contract of each is a law, and a proof that needs
//! the law calls the function.

ghost use Rattle.cil_constraints.specs.Laws.{AreOrdered, StepsTellApart, TiesAreEqual, TruthIsByNumbers};

/// Constraints that tie in their order are equal: so a list of them that is sorted and has no repeats is that of a set.
pub fn one_constraint()
    ensures { TiesAreEqual }
{}

/// Any two constraints have an order.
pub fn constraint_total()
    ensures { AreOrdered }
{}

/// Expressions with the same steps are equal: so the steps of an expression are read in one way.
pub fn same_steps()
    ensures { StepsTellApart }
{}

/// What a statement asks for is true of two contexts where it is true of their numbers, by the numbers for which its words stand.
pub fn truth_by_numbers()
    ensures { TruthIsByNumbers }
{}
