//! The least source, target, class and permission that the rules of two statements cover.

ghost use Rattle.std.specs.Prelude.{◌≡◌, ◌≤◌, [], ℕ, MatchOption, bit_and, map, option_map};
ghost use Rattle.cil_index.specs.rules.Kept.{rule_named, set_named};
ghost use Rattle.cil_neverallow.specs.Ends.{AreFirstReached, AreInAll, AreInBoth, AreReached, IsClimb, IsLeastIn, end_at};
ghost use Rattle.cil_neverallow.specs.Overlaps.{BothHold, IsLeastFor, IsMet, IsOverlap, lesser_of, overlap_cmp, pick};

use cil_index::{NamedRule, Reach};
use cil_sets::Numbers;
use std::cmp::Ordering;

/// A source, a target, a class and a permission, by their numbers.
#[derive(Clone, Copy)]
pub struct Overlap {
    pub source: usize,
    pub target: usize,
    pub class: u32,
    pub bit: u32,
}

/// A source and a target.
#[derive(Clone, Copy)]
pub struct Ends {
    pub source: usize,
    pub target: usize,
}

/// A type of one set, and one at which the next search begins.
#[derive(Clone, Copy)]
pub struct Climb {
    pub from: usize,
    pub to: usize,
}

/// The least that a rule of one statement and a rule of another cover, where these are the sets of declared names. It costs a step for each
/// two of their rules, and for those on one class with a permission in common a step for each block of their sets.
pub fn least(types: &[Numbers], forbidden: &[NamedRule], allowed: &[NamedRule]) -> Option<Overlap>
    ensures { IsLeastFor (IsOverlap (map (rule_named [] types.now) forbidden.now) (map (rule_named [] types.now) allowed.now)) result }
{
    let mut best = None;
    for rule in forbidden {
        best = lesser(best, least_with(types, rule, allowed));
    }
    best
}

/// The least that a rule and some of others cover.
fn least_with(types: &[Numbers], rule: &NamedRule, allowed: &[NamedRule]) -> Option<Overlap>
    ensures { IsLeastFor (IsMet (rule_named [] types.now rule.now) (map (rule_named [] types.now) allowed.now)) result }
{
    let mut best = None;
    for other in allowed {
        best = lesser(best, least_of(types, rule, other));
    }
    best
}

/// The lesser of two.
fn lesser(a: Option<Overlap>, b: Option<Overlap>) -> Option<Overlap>
    ensures { result ≡ lesser_of a b }
{
    match (a, b) {
        (None, b) => b,
        (Some(x), None) => Some(x),
        (Some(x), Some(y)) => Some(picked(compare(&y, &x), x, y)),
    }
}

/// The second where it is before the first, else the first.
fn picked(order: Ordering, x: Overlap, y: Overlap) -> Overlap
    ensures { result ≡ pick order x y }
{
    match order {
        Ordering::Less => y,
        Ordering::Equal => x,
        Ordering::Greater => x,
    }
}

/// By source, then target, then class, then permission.
fn compare(a: &Overlap, b: &Overlap) -> Ordering
    ensures { result ≡ overlap_cmp a.now b.now }
{
    a.source
        .cmp(&b.source)
        .then(a.target.cmp(&b.target))
        .then(a.class.cmp(&b.class))
        .then(a.bit.cmp(&b.bit))
}

/// The least that two rules cover.
fn least_of(types: &[Numbers], rule: &NamedRule, other: &NamedRule) -> Option<Overlap>
    ensures { IsLeastFor (BothHold (rule_named [] types.now rule.now) (rule_named [] types.now other.now)) result }
{
    if rule.class != other.class {
        return None;
    }
    let shared = in_common(rule.mask, other.mask);
    if shared == 0 {
        return None;
    }
    let ends = first_ends(types, rule, other)?;
    Some(Overlap {
        source: ends.source,
        target: ends.target,
        class: rule.class,
        bit: shared.trailing_zeros(),
    })
}

/// The permissions that two masks have in common.
fn in_common(a: u32, b: u32) -> u32
    ensures { result ≡ bit_and a b }
{
    a & b
}

// ---- types

/// The least source that both rules have, and with it the least target that both reach.
fn first_ends(types: &[Numbers], rule: &NamedRule, other: &NamedRule) -> Option<Ends>
    ensures { MatchOption result ((s t : ℕ) → AreReached (rule_named [] types.now rule.now) (rule_named [] types.now other.now) s t → ⊥)
        (AreFirstReached (rule_named [] types.now rule.now) (rule_named [] types.now other.now)) }
{
    match (rule.target, other.target) {
        (Reach::Types(mine), Reach::Types(theirs)) => {
            let source = least_in_both(types, rule.source, other.source)?;
            let target = least_in_both(types, mine, theirs)?;
            Some(Ends { source, target })
        }
        (Reach::Itself, Reach::Types(set)) => {
            one_end(least_in_all(types, rule.source, other.source, set))
        }
        (Reach::Types(set), Reach::Itself) => {
            one_end(least_in_all(types, rule.source, other.source, set))
        }
        (Reach::Itself, Reach::Itself) => one_end(least_in_both(types, rule.source, other.source)),
    }
}

/// A type as source and as target.
fn one_end(found: Option<usize>) -> Option<Ends>
    ensures { result ≡ option_map end_at found }
{
    let number = found?;
    Some(Ends {
        source: number,
        target: number,
    })
}

/// The types for which a declared name stands; none where there is no name of this number.
pub fn set_at(types: &[Numbers], number: u32) -> Option<&Numbers>
    ensures { MatchOption result (set_named types.now number ≡ []) (λ set. set.now ≡ set_named types.now number) }
{
    types.get(number as usize)
}

/// The least type for which two declared names stand.
fn least_in_both(types: &[Numbers], first: u32, second: u32) -> Option<usize>
    ensures { MatchOption result ((t : ℕ) → AreInBoth (set_named types.now first) (set_named types.now second) t → ⊥)
        (IsLeastIn (AreInBoth (set_named types.now first) (set_named types.now second))) }
{
    let first = set_at(types, first)?;
    let second = set_at(types, second)?;
    first.least_common(second)
}

/// The least type for which three declared names stand.
fn least_in_all(types: &[Numbers], first: u32, second: u32, third: u32) -> Option<usize>
    ensures { MatchOption result ((t : ℕ) → AreInAll (set_named types.now first) (set_named types.now second) (set_named types.now third) t → ⊥)
        (IsLeastIn (AreInAll (set_named types.now first) (set_named types.now second) (set_named types.now third))) }
{
    let first = set_at(types, first)?;
    let second = set_at(types, second)?;
    let third = set_at(types, third)?;
    least_of_three(first, second, third)
}

/// The least number that three sets have. It takes no memory: at most three searches by halving for each member of the smallest.
fn least_of_three(first: &Numbers, second: &Numbers, third: &Numbers) -> Option<usize>
    ensures { MatchOption result ((t : ℕ) → AreInAll first.now second.now third.now t → ⊥) (IsLeastIn (AreInAll first.now second.now third.now)) }
{
    let mut start = 0;
    while let Some(climb) = climbed(first, second, third, start) {
        if climb.from == climb.to {
            return Some(climb.to);
        }
        start = climb.to;
    }
    None
}

/// The least number of the first set from a number on, and the least of the third from the least of the second on that is not below it.
fn climbed(first: &Numbers, second: &Numbers, third: &Numbers, start: usize) -> Option<Climb>
    ensures { MatchOption result ((t : ℕ) → AreInAll first.now second.now third.now t → start ≤ t → ⊥) (IsClimb first.now second.now third.now start) }
{
    let from = first.next_from(start)?;
    let middle = second.next_from(from)?;
    let to = third.next_from(middle)?;
    Some(Climb { from, to })
}
