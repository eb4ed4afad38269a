//! The order of constraints: by class, then by mask, then step by step, in the order of the bytes that a table has of them.

ghost use Rattle.std.specs.Prelude.{◌≡◌, [], MatchOption, refl};
ghost use Rattle.std.specs.Cmp.{eq_by_cmp_equiv, partial_equiv_from_equiv, partial_order_from_total};
ghost use Rattle.std.specs.Ordering.{as_partial_cmp, eq_by_cmp};
ghost use Rattle.cil_sets.specs.Answers.{set_cmp};
ghost use Rattle.cil_constraints.specs.Heads.{fourth_of, second_of, set_in, step_total, tag_of, third_of};
ghost use Rattle.cil_constraints.specs.Order.{constraint_cmp, constraint_total, equality_byte, first_byte, relation_byte, second_byte, step_cmp, variable_byte};

use crate::mask::Constraint;
use crate::step::{Equality, LevelPair, Part, Relation, Side, Step};
use cil_sets::Numbers;
use std::cmp::Ordering;

/// The byte of a variable.
fn variable_byte(part: Part, side: Side) -> u8
    ensures { result ≡ variable_byte part side }
{
    let first = match part {
        Part::User => 0,
        Part::Role => 2,
        Part::Kind => 4,
    };
    match side {
        Side::Source => first,
        Side::Target => first + 1,
    }
}

/// The byte of the first of two levels.
fn first_byte(pair: LevelPair) -> u8
    ensures { result ≡ first_byte pair }
{
    match pair {
        LevelPair::Lows => 6,
        LevelPair::SourceRange => 6,
        LevelPair::LowHigh => 6,
        LevelPair::TargetRange => 7,
        LevelPair::HighLow => 8,
        LevelPair::Highs => 8,
    }
}

/// The byte of the second of two levels.
fn second_byte(pair: LevelPair) -> u8
    ensures { result ≡ second_byte pair }
{
    match pair {
        LevelPair::Lows => 7,
        LevelPair::SourceRange => 8,
        LevelPair::LowHigh => 9,
        LevelPair::TargetRange => 9,
        LevelPair::HighLow => 7,
        LevelPair::Highs => 9,
    }
}

/// The byte of an equality.
fn equality_byte(equality: Equality) -> u8
    ensures { result ≡ equality_byte equality }
{
    match equality {
        Equality::Equal => 0,
        Equality::Different => 1,
    }
}

/// The byte of a relation.
fn relation_byte(relation: Relation) -> u8
    ensures { result ≡ relation_byte relation }
{
    match relation {
        Relation::Equal => 0,
        Relation::Different => 1,
        Relation::Dominates => 2,
        Relation::DominatedBy => 3,
        Relation::Incomparable => 4,
    }
}

/// The tag of a step: its first byte.
fn tag_of(step: &Step) -> u8
    ensures { result ≡ tag_of step.now }
{
    match step {
        Step::Not => 2,
        Step::And => 3,
        Step::Or => 4,
        Step::Compared(_, _) => 16,
        Step::Ranked(_, _) => 16,
        Step::Inside(_, _, _, _) => 17,
    }
}

/// The second byte of a step; 0 where it has none.
fn second_of(step: &Step) -> u8
    ensures { result ≡ second_of step.now }
{
    match step {
        Step::Not => 0,
        Step::And => 0,
        Step::Or => 0,
        Step::Compared(part, _) => variable_byte(*part, Side::Source),
        Step::Ranked(pair, _) => first_byte(*pair),
        Step::Inside(part, side, _, _) => variable_byte(*part, *side),
    }
}

/// The third byte of a step; 0 where it has none.
fn third_of(step: &Step) -> u8
    ensures { result ≡ third_of step.now }
{
    match step {
        Step::Not => 0,
        Step::And => 0,
        Step::Or => 0,
        Step::Compared(part, _) => variable_byte(*part, Side::Target),
        Step::Ranked(pair, _) => second_byte(*pair),
        Step::Inside(_, _, equality, _) => equality_byte(*equality),
    }
}

/// The fourth byte of a step; 0 where it has none, or has a set there.
fn fourth_of(step: &Step) -> u8
    ensures { result ≡ fourth_of step.now }
{
    match step {
        Step::Not => 0,
        Step::And => 0,
        Step::Or => 0,
        Step::Compared(_, equality) => equality_byte(*equality),
        Step::Ranked(_, relation) => relation_byte(*relation),
        Step::Inside(_, _, _, _) => 0,
    }
}

/// The set of a step.
fn set_in(step: &Step) -> Option<&Numbers>
    ensures { MatchOption result (set_in step.now ≡ []) (λ set. set.now ≡ set_in step.now) }
{
    match step {
        Step::Not => None,
        Step::And => None,
        Step::Or => None,
        Step::Compared(_, _) => None,
        Step::Ranked(_, _) => None,
        Step::Inside(_, _, _, set) => Some(set),
    }
}

/// How the sets of two steps compare. A step without one has the empty one.
fn sets_compared(a: &Step, b: &Step) -> Ordering
    ensures { result ≡ set_cmp (set_in a.now) (set_in b.now) }
{
    match set_in(a) {
        None => match set_in(b) {
            None => Ordering::Equal,
            Some(set) => {
                if set.is_empty() {
                    Ordering::Equal
                } else {
                    Ordering::Less
                }
            }
        },
        Some(set) => match set_in(b) {
            None => {
                if set.is_empty() {
                    Ordering::Equal
                } else {
                    Ordering::Greater
                }
            }
            Some(other) => set.cmp(other),
        },
    }
}

impl PartialEq for Step {
    ghost eq = { eq_by_cmp step_cmp };

    ghost laws = { partial_equiv_from_equiv (eq_by_cmp_equiv step_total) };

    fn eq(&self, other: &Step) -> bool {
        self.cmp(other) == Ordering::Equal
    }
}

impl Eq for Step {
    ghost laws = { eq_by_cmp_equiv step_total };
}

impl PartialOrd for Step {
    ghost partial_cmp = { as_partial_cmp step_cmp };

    ghost laws = { partial_order_from_total step_total };

    fn partial_cmp(&self, other: &Step) -> Option<Ordering> {
        Some(self.cmp(other))
    }
}

impl Ord for Step {
    ghost cmp = { step_cmp };

    ghost total = { step_total };

    ghost matches_partial_cmp = { λ a b. refl };

    ghost matches_eq = { λ a b. refl };

    fn cmp(&self, other: &Step) -> Ordering {
        compared(self, other)
    }
}

/// How two steps compare: by their bytes, the first that differs.
fn compared(a: &Step, b: &Step) -> Ordering
    ensures { result ≡ step_cmp a.now b.now }
{
    let tags = tag_of(a).cmp(&tag_of(b));
    let second = second_of(a).cmp(&second_of(b));
    let third = third_of(a).cmp(&third_of(b));
    let fourth = fourth_of(a).cmp(&fourth_of(b));
    tags.then(second.then(third.then(fourth.then(sets_compared(a, b)))))
}

impl PartialEq for Constraint {
    ghost eq = { eq_by_cmp constraint_cmp };

    ghost laws = { partial_equiv_from_equiv (eq_by_cmp_equiv constraint_total) };

    fn eq(&self, other: &Constraint) -> bool {
        self.cmp(other) == Ordering::Equal
    }
}

impl Eq for Constraint {
    ghost laws = { eq_by_cmp_equiv constraint_total };
}

impl PartialOrd for Constraint {
    ghost partial_cmp = { as_partial_cmp constraint_cmp };

    ghost laws = { partial_order_from_total constraint_total };

    fn partial_cmp(&self, other: &Constraint) -> Option<Ordering> {
        Some(self.cmp(other))
    }
}

impl Ord for Constraint {
    ghost cmp = { constraint_cmp };

    ghost total = { constraint_total };

    ghost matches_partial_cmp = { λ a b. refl };

    ghost matches_eq = { λ a b. refl };

    fn cmp(&self, other: &Constraint) -> Ordering {
        self.class
            .cmp(&other.class)
            .then(self.mask.cmp(&other.mask))
            .then(self.expr.as_slice().cmp(other.expr.as_slice()))
    }
}
