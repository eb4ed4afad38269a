//! Laws of the definitions. The functions do nothing when they are called; the contract of each is a law, and a proof that needs
//! the law calls the function.

ghost use Rattle.cil_level_rows.specs.Laws.{ClearsAlike, HasEmptyTable, HasOneLevelTable, LevelsAnswer, NothingIsWrong, ReadsAlike};

/// A policy has one table of levels.
pub fn one_level_table()
    ensures { HasOneLevelTable }
{}

/// By its table texts have the labels that they have by the policy.
pub fn reads_alike()
    ensures { ReadsAlike }
{}

/// By its table users may have the levels that they may have by the policy.
pub fn clears_alike()
    ensures { ClearsAlike }
{}

/// Nothing is wrong with the levels of a policy that has no statement of levels.
pub fn nothing_is_wrong()
    ensures { NothingIsWrong }
{}

/// A policy that has no statement of levels has the empty table.
pub fn has_empty_table()
    ensures { HasEmptyTable }
{}

/// What `levels_of` of cil_ranges answers are the levels of the policy, or all that is wrong with them.
pub fn levels_answer()
    ensures { LevelsAnswer }
{}
