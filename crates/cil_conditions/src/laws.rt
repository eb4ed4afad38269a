//! Laws of conditions. The functions do nothing when they are called; the contract of each is a law.

ghost use Rattle.cil_conditions.specs.Laws.{BranchesAgree, ChosenIsSaid, HasOneSpelling, HasOneTruth, HasSpelledTruth, SaidIsSpelled, SpelledIsSaid};

/// A condition has the value of the tokens that spell it.
pub fn spelled_truth()
    ensures { HasSpelledTruth }
{}

/// A condition has one value.
pub fn one_truth()
    ensures { HasOneTruth }
{}

/// A branch of a table is active where that of its statement is chosen.
pub fn branches_agree()
    ensures { BranchesAgree }
{}

/// Where each name has one number, a statement has one branch in a table.
pub fn one_spelling()
    ensures { HasOneSpelling }
{}

/// Where each boolean has a number, a condition that names booleans is spelled by some tokens.
pub fn said_is_spelled()
    ensures { SaidIsSpelled }
{}

/// What is spelled names booleans.
pub fn spelled_is_said()
    ensures { SpelledIsSaid }
{}

/// What is chosen has a condition that names booleans.
pub fn chosen_is_said()
    ensures { ChosenIsSaid }
{}
