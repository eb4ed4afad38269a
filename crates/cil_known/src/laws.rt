//! Laws of the definitions. The functions do nothing when they are called; the contract of each is a law, and a proof
//! that needs the law calls the function.

ghost use Rattle.cil_known.specs.MemberLaws.{HasOneFamily, HoldsTheSame, StandsAsHeld, StandsForOne, TestsDeclared};

/// Where no set depends on itself, which ranks show, one family of sets alone has the members that statements give.
pub fn one_family()
    ensures { HasOneFamily }
{}

/// So a word stands for the same items in each such family.
pub fn holds_the_same()
    ensures { HoldsTheSame }
{}

/// The test of what is declared says what its definition says.
pub fn tests_declared()
    ensures { TestsDeclared }
{}

/// A word of a kind that has no aliases and no attributes stands for the one symbol that it names.
pub fn stands_for_one()
    ensures { StandsForOne }
{}

/// Where no set depends on itself, which ranks show, a word stands for what it holds in any family of sets that has the members that
/// statements give.
pub fn stands_as_held()
    ensures { StandsAsHeld }
{}
