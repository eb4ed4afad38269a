//! Copies of steps, and how deep expressions nest.

use crate::copies::copies_of;
use crate::depth::is_shallow;
use crate::step::{Equality, LevelPair, Part, Relation, Side, Step};
use cil_sets::Numbers;
use std::alloc::Global;
use std::cmp::Ordering;
use std::test::Fail;

/// So many times `not`, in front of a comparison: one level more.
fn chain(alloc: Global, nots: usize) -> Result<Vec<Step>, Fail> {
    let mut steps = Vec::new(alloc);
    for _ in 0..nots {
        steps.push(Step::Not)?;
    }
    steps.push(Step::Compared(Part::User, Equality::Equal))?;
    Ok(steps)
}

fn is_chain_shallow(alloc: Global, nots: usize) -> Result<bool, Fail> {
    let steps = chain(alloc, nots)?;
    Ok(is_shallow(steps.as_slice()))
}

#[test]
fn expressions_may_have_128_levels(rt: HostRuntime) -> Result<(), Fail> {
    let alloc = rt.alloc();
    for &(nots, want) in &[(0, true), (127, true), (128, false), (300, false)] {
        assert_eq!(rt; is_chain_shallow(alloc, nots)?, want, "{nots}");
    }
    Ok(())
}

fn set_of_two(alloc: Global, first: usize, second: usize) -> Result<Numbers, Fail> {
    let mut set = Numbers::new(alloc);
    set.add(first)?;
    set.add(second)?;
    Ok(set)
}

/// A step of each kind.
fn each_kind(alloc: Global, first: usize, second: usize) -> Result<Vec<Step>, Fail> {
    let set = set_of_two(alloc, first, second)?;
    let mut steps = Vec::new(alloc);
    steps.push(Step::Or)?;
    steps.push(Step::And)?;
    steps.push(Step::Ranked(LevelPair::Highs, Relation::Dominates))?;
    steps.push(Step::Not)?;
    steps.push(Step::Compared(Part::Role, Equality::Different))?;
    steps.push(Step::Inside(Part::Kind, Side::Target, Equality::Equal, set))?;
    Ok(steps)
}

/// How the copies of steps of each kind with this set compare with those with the set of 5 and 70.
fn copies_compared(alloc: Global, first: usize, second: usize) -> Result<Ordering, Fail> {
    let steps = each_kind(alloc, first, second)?;
    let copies = copies_of(alloc, steps.as_slice())?;
    let others = each_kind(alloc, 5, 70)?;
    Ok(copies.as_slice().cmp(others.as_slice()))
}

#[test]
fn copies_are_what_is_copied(rt: HostRuntime) -> Result<(), Fail> {
    let alloc = rt.alloc();
    for &(first, second, want) in &[
        (5, 70, Ordering::Equal),
        (4, 70, Ordering::Less),
        (5, 71, Ordering::Greater),
        (5, 5, Ordering::Less),
    ] {
        assert_eq!(rt;
            copies_compared(alloc, first, second)?,
            want,
            "{first} {second}"
        );
    }
    Ok(())
}
