//! Variables, pairs and operations by their bytes, and their bytes.

ghost use Rattle.std.specs.Prelude.{◌≡◌, ◌^◌, ◌∷◌, []};
ghost use Rattle.std.specs.Int.{w8};
ghost use Rattle.cil_format.specs.Format.{checked, number};
ghost use Rattle.cil_format.specs.Takes.{Takes};
ghost use Rattle.cil_format.specs.declared.fault.TableFault.TheVariants.{OutOfRange};
ghost use Rattle.cil_constraints.specs.Expressions.{steps_of};
ghost use Rattle.cil_constraints.specs.Order as order;
ghost use Rattle.cil_constraint_bytes.specs.Layout as layout;

use cil_constraints::{Equality, LevelPair, Part, Relation, Side, Step};
use cil_format::{TableError, TableFault, u8_at};

/// The part that a variable is of.
pub(crate) fn part_by(variable: u8) -> Part
    ensures { result ≡ layout.part_by variable }
{
    if variable < 2 {
        return Part::User;
    }
    if variable < 4 {
        return Part::Role;
    }
    Part::Kind
}

/// The context that a variable is of.
pub(crate) fn side_by(variable: u8) -> Side
    ensures { result ≡ layout.side_by variable }
{
    if (variable == 0) | (variable == 2) | (variable == 4) {
        return Side::Source;
    }
    Side::Target
}

/// Whether things have to be one, or two.
pub(crate) fn equality_by(op: u8) -> Equality
    ensures { result ≡ layout.equality_by op }
{
    if op == 0 {
        return Equality::Equal;
    }
    Equality::Different
}

/// How two levels have to be to one another.
fn relation_by(op: u8) -> Relation
    ensures { result ≡ layout.relation_by op }
{
    match op {
        0 => Relation::Equal,
        1 => Relation::Different,
        2 => Relation::Dominates,
        3 => Relation::DominatedBy,
        _ => Relation::Incomparable,
    }
}

/// The two levels of which the first is `l1`.
fn low_pair(second: u8) -> LevelPair
    ensures { result ≡ layout.pair_by 6 second }
{
    match second {
        7 => LevelPair::Lows,
        8 => LevelPair::SourceRange,
        _ => LevelPair::LowHigh,
    }
}

/// The two levels that are compared.
fn pair_by(first: u8, second: u8) -> LevelPair
    ensures { result ≡ layout.pair_by first second }
{
    match first {
        7 => LevelPair::TargetRange,
        8 => {
            if second == 7 {
                LevelPair::HighLow
            } else {
                LevelPair::Highs
            }
        }
        _ => low_pair(second),
    }
}

/// Whether something may be said of two variables.
fn are_paired(first: u8, second: u8) -> bool
    ensures { result ≡ layout.pairs_with first second }
{
    match first {
        0 => second == 1,
        2 => second == 3,
        4 => second == 5,
        6 => (second == 7) | (second == 8) | (second == 9),
        7 => second == 9,
        8 => (second == 7) | (second == 9),
        _ => false,
    }
}

/// How many operations there are for a pair, by the first of the two.
pub(crate) fn operations(first: u8) -> u8
    ensures { result ≡ layout.operations first }
{
    if first < 6 { 2 } else { 5 }
}

/// The second variable of a pair.
pub(crate) fn second_at(bytes: &[u8], first: u8) -> Result<(u8, &[u8]), TableError>
    ensures { Takes (λ x. (x.0, x.1.now)) result ((checked (layout.pairs_with first) OutOfRange (number w8 (2 ^ 8))).read bytes.now) }
{
    let (second, rest) = u8_at(bytes)?;
    if are_paired(first, second) {
        return Ok((second, rest));
    }
    Err(TableError::Fault(TableFault::OutOfRange))
}

/// What is said of a pair.
pub(crate) fn pair_step(first: u8, second: u8, op: u8) -> Step
    ensures { result ∷ [] ≡ steps_of (layout.pair_of (first, (second, op))) }
{
    if first < 6 {
        return Step::Compared(part_by(first), equality_by(op));
    }
    Step::Ranked(pair_by(first, second), relation_by(op))
}

/// The byte of a variable.
pub(crate) fn variable_byte(part: Part, side: Side) -> u8
    ensures { result ≡ order.variable_byte part side }
{
    let first = match part {
        Part::User => 0,
        Part::Role => 2,
        Part::Kind => 4,
    };
    match side {
        Side::Source => first,
        Side::Target => first + 1,
    }
}

/// The byte of the first of two levels.
pub(crate) fn first_byte(pair: LevelPair) -> u8
    ensures { result ≡ order.first_byte pair }
{
    match pair {
        LevelPair::Lows => 6,
        LevelPair::SourceRange => 6,
        LevelPair::LowHigh => 6,
        LevelPair::TargetRange => 7,
        LevelPair::HighLow => 8,
        LevelPair::Highs => 8,
    }
}

/// The byte of the second of two levels.
pub(crate) fn second_byte(pair: LevelPair) -> u8
    ensures { result ≡ order.second_byte pair }
{
    match pair {
        LevelPair::Lows => 7,
        LevelPair::SourceRange => 8,
        LevelPair::LowHigh => 9,
        LevelPair::TargetRange => 9,
        LevelPair::HighLow => 7,
        LevelPair::Highs => 9,
    }
}

/// The byte of an equality.
pub(crate) fn equality_byte(equality: Equality) -> u8
    ensures { result ≡ order.equality_byte equality }
{
    match equality {
        Equality::Equal => 0,
        Equality::Different => 1,
    }
}

/// The byte of a relation.
pub(crate) fn relation_byte(relation: Relation) -> u8
    ensures { result ≡ order.relation_byte relation }
{
    match relation {
        Relation::Equal => 0,
        Relation::Different => 1,
        Relation::Dominates => 2,
        Relation::DominatedBy => 3,
        Relation::Incomparable => 4,
    }
}
