//! Laws of lists of faults. The functions do nothing when they are called; the contract of each is a law, and a proof that needs
//! the law calls the function.

ghost use Rattle.cil_faults.specs.Laws.{HasOneFaultList, JoinsBoth, JoinsInAnyOrder};

/// A set of faults has at most one list.
pub fn one_fault_list()
    ensures { HasOneFaultList }
{}

/// The list of what two lists have is the list of both sets.
pub fn joins_both()
    ensures { JoinsBoth }
{}

/// Two lists have the same faults together, whichever comes first.
pub fn joins_in_any_order()
    ensures { JoinsInAnyOrder }
{}
