//! The variables and operators of comparisons.

ghost use Rattle.std.specs.Prelude.{◌≡◌};
ghost use Rattle.cil_constraints.specs.Saying.{equality_of, is_union, pair_of, relation_of, variable_of};

use crate::step::{Equality, LevelPair, Part, Relation, Side};
use cil_syntax::Op;

/// A variable of a constraint.
#[derive(Clone, Copy, Debug)]
pub enum Variable {
    /// A user, role or type.
    PartOf(Part, Side),
    /// A low level.
    LowOf(Side),
    /// A high level.
    HighOf(Side),
}

/// The variable that an operator is.
pub fn variable_of(op: Op) -> Option<Variable>
    ensures { result ≡ variable_of op }
{
    match op {
        Op::SourceUser => Some(Variable::PartOf(Part::User, Side::Source)),
        Op::TargetUser => Some(Variable::PartOf(Part::User, Side::Target)),
        Op::SourceRole => Some(Variable::PartOf(Part::Role, Side::Source)),
        Op::TargetRole => Some(Variable::PartOf(Part::Role, Side::Target)),
        Op::SourceType => Some(Variable::PartOf(Part::Kind, Side::Source)),
        Op::TargetType => Some(Variable::PartOf(Part::Kind, Side::Target)),
        Op::SourceLow => Some(Variable::LowOf(Side::Source)),
        Op::TargetLow => Some(Variable::LowOf(Side::Target)),
        Op::SourceHigh => Some(Variable::HighOf(Side::Source)),
        Op::TargetHigh => Some(Variable::HighOf(Side::Target)),
        _ => None,
    }
}

/// How an operator compares.
pub fn relation_of(op: Op) -> Option<Relation>
    ensures { result ≡ relation_of op }
{
    match op {
        Op::Equal => Some(Relation::Equal),
        Op::Unequal => Some(Relation::Different),
        Op::Dominates => Some(Relation::Dominates),
        Op::DominatedBy => Some(Relation::DominatedBy),
        Op::Incomparable => Some(Relation::Incomparable),
        _ => None,
    }
}

/// Users, roles and types are equal or different.
pub fn equality_of(relation: Relation) -> Option<Equality>
    ensures { result ≡ equality_of relation }
{
    match relation {
        Relation::Equal => Some(Equality::Equal),
        Relation::Different => Some(Equality::Different),
        _ => None,
    }
}

/// The pair of two levels that can be compared.
pub fn pair_of(first: Variable, second: Variable) -> Option<LevelPair>
    ensures { result ≡ pair_of first second }
{
    match (first, second) {
        (Variable::LowOf(Side::Source), Variable::LowOf(Side::Target)) => Some(LevelPair::Lows),
        (Variable::LowOf(Side::Source), Variable::HighOf(Side::Source)) => {
            Some(LevelPair::SourceRange)
        }
        (Variable::LowOf(Side::Source), Variable::HighOf(Side::Target)) => Some(LevelPair::LowHigh),
        (Variable::LowOf(Side::Target), Variable::HighOf(Side::Target)) => {
            Some(LevelPair::TargetRange)
        }
        (Variable::HighOf(Side::Source), Variable::LowOf(Side::Target)) => Some(LevelPair::HighLow),
        (Variable::HighOf(Side::Source), Variable::HighOf(Side::Target)) => Some(LevelPair::Highs),
        _ => None,
    }
}

/// Whether an operator joins words to a list.
pub fn is_union(op: Op) -> bool
    ensures { result ≡ is_union op }
{
    matches!(op, Op::Union)
}
