//! What a constraint says, step by step.

use cil_sets::Numbers;

/// A part of a context that constraints compare.
#[derive(Clone, Copy, Debug, PartialEq, Eq)]
pub enum Part {
    /// The user.
    User,
    /// The role.
    Role,
    /// The type.
    Kind,
}

/// The context whose part is meant.
#[derive(Clone, Copy, Debug, PartialEq, Eq)]
pub enum Side {
    /// The source.
    Source,
    /// The target.
    Target,
}

/// Whether two things have to be one, or two.
#[derive(Clone, Copy, Debug, PartialEq, Eq)]
pub enum Equality {
    /// `eq`
    Equal,
    /// `neq`
    Different,
}

/// Two levels that a constraint compares, in the order of the table's bytes.
#[derive(Clone, Copy, Debug, PartialEq, Eq)]
pub enum LevelPair {
    /// `l1 l2`
    Lows,
    /// `l1 h1`
    SourceRange,
    /// `l1 h2`
    LowHigh,
    /// `l2 h2`
    TargetRange,
    /// `h1 l2`
    HighLow,
    /// `h1 h2`
    Highs,
}

/// How two levels have to be to one another.
#[derive(Clone, Copy, Debug, PartialEq, Eq)]
pub enum Relation {
    /// `eq`
    Equal,
    /// `neq`
    Different,
    /// `dom`
    Dominates,
    /// `domby`
    DominatedBy,
    /// `incomp`
    Incomparable,
}

/// A step of an expression. An operator is in front of its operands.
#[derive(Debug, Drop)]
pub enum Step {
    /// The next expression is not true.
    Not,
    /// The next two expressions are true.
    And,
    /// One of the next two expressions is true.
    Or,
    /// The source's part and the target's part are one, or two.
    Compared(Part, Equality),
    /// Two levels are so to one another.
    Ranked(LevelPair, Relation),
    /// A part is in a set, or not.
    Inside(Part, Side, Equality, Numbers),
}

const _: () = prove!(size_of::<Step>() <= 32);
