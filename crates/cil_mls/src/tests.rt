//! Orders and sets of categories.

ghost use Rattle.std.specs.Prelude.{IsTrue, All};
ghost use Rattle.cil_settle.specs.Cycles.{IsWithin};

use crate::{Categories, order_of};
use cil_settle::Edge;
use std::alloc::Global;
use std::test::Fail;

/// How many numbers there are, what is said to be below what, and the one order; none where not just one is fixed.
type Order = (usize, &'static [(usize, usize)], Option<&'static [usize]>);

const ORDERS: &[Order] = &[
    (0, &[], Some(&[])),
    (1, &[], Some(&[0])),
    // Below itself, alone and beside others.
    (1, &[(0, 0)], None),
    (2, &[(0, 1), (1, 1)], None),
    // Nothing is said, one pair, the other, and a circle.
    (2, &[], None),
    (2, &[(0, 1)], Some(&[0, 1])),
    (2, &[(1, 0)], Some(&[1, 0])),
    (2, &[(0, 1), (1, 0)], None),
    (3, &[(0, 1), (1, 2), (2, 0)], None),
    // A row in order, out of order, with equal pairs, and with a pair that is no neighbour.
    (3, &[(0, 1), (1, 2)], Some(&[0, 1, 2])),
    (3, &[(1, 2), (0, 1), (0, 1)], Some(&[0, 1, 2])),
    (3, &[(0, 2), (2, 1), (0, 1)], Some(&[0, 2, 1])),
    (4, &[(0, 1), (2, 3), (1, 2)], Some(&[0, 1, 2, 3])),
    // An item of which nothing is said, forks, and diamonds.
    (3, &[(0, 1)], None),
    (3, &[(0, 1), (0, 2)], None),
    (3, &[(0, 2), (1, 2)], None),
    (4, &[(0, 1), (2, 3), (1, 3), (0, 2)], None),
    (
        4,
        &[(0, 1), (0, 2), (1, 3), (2, 3), (1, 2)],
        Some(&[0, 1, 2, 3]),
    ),
];

/// Whether both ends of each edge are below a count.
fn are_within(edges: &[Edge], count: usize) -> bool
    ensures { IsTrue result → All (IsWithin count) edges.now }
{
    edges
        .iter()
        .all(|edge| edge.from < count && edge.to < count)
}

fn edges_of(alloc: Global, pairs: &[(usize, usize)]) -> Option<Vec<Edge>> {
    let mut edges = Vec::new(alloc);
    for &(from, to) in pairs {
        edges
            .push(Edge {
                from,
                to,
                counted: false,
            })
            .ok()?;
    }
    Some(edges)
}

/// The one order, or none. The outer option is none where there is no memory.
fn order(alloc: Global, count: usize, pairs: &[(usize, usize)]) -> Option<Option<Vec<usize>>> {
    let mut edges = edges_of(alloc, pairs)?;
    if !are_within(edges.as_slice(), count) {
        return None;
    }
    order_of(alloc, &mut edges, count).ok()
}

/// Whether a row is so. None where there is no memory.
fn is_order_so(alloc: Global, row: Order) -> Option<bool> {
    let (count, pairs, want) = row;
    let Some(order) = order(alloc, count, pairs)? else {
        return Some(want.is_none());
    };
    Some(want == Some(order.as_slice()))
}

#[test]
fn a_refused_growth_of_an_order(rt: HostRuntime) {
    let alloc = rt.alloc();
    for &row in ORDERS {
        let got = is_order_so(alloc, row).or_else(|| is_order_so(alloc, row));
        let pairs = row.1;
        assert!(rt; got == Some(true), "{pairs:?}");
    }
}

/// Each of 100,000 numbers below the next, the highest pair first.
fn long_row(alloc: Global) -> Result<Vec<(usize, usize)>, Fail> {
    let mut pairs = Vec::new(alloc);
    for high in (1..100_000usize).rev() {
        pairs.push((high - 1, high))?;
    }
    Ok(pairs)
}

#[test]
fn a_long_order(rt: HostRuntime) -> Result<(), Fail> {
    let alloc = rt.alloc();
    let pairs = long_row(alloc)?;
    let order = order(alloc, 100_000, pairs.as_slice()).ok_or("no memory")?;
    let order = order.ok_or("no order")?;
    assert_eq!(rt; order.len(), 100_000);
    assert_eq!(rt; order.as_slice().get(99_999), Some(&99_999));
    Ok(())
}

/// A set, by the first and the last number of each span.
pub type Spans = &'static [(usize, usize)];

/// The set of some spans.
pub fn set_of(spans: &[(usize, usize)]) -> Categories {
    let mut set = Categories::none();
    for &(first, last) in spans {
        if last < 1024 {
            set.add_between(first, last);
        }
    }
    set
}

/// A category, the place of its word and its bit there.
const BITS: &[(usize, usize, u64)] = &[
    (0, 0, 1),
    (63, 0, 1 << 63),
    (64, 1, 1),
    (1023, 15, 1 << 63),
];

/// Whether a category is kept as this bit alone.
fn is_kept_so(category: usize, place: usize, word: u64) -> bool {
    let set = set_of(&[(category, category)]);
    let others = set_of(&[(0, 1023)]).apart(&set);
    let has = category < 1024 && set.has(category) && !others.has(category);
    has && set.words.get(place) == Some(&word)
}

#[test]
fn a_category_is_one_bit(rt: HostRuntime) {
    for &(category, place, word) in BITS {
        assert!(rt; is_kept_so(category, place, word), "{category}");
    }
}

/// Two sets; what one of them has, what both have, what just one has; and whether the first includes the second.
type Joined = (Spans, Spans, Spans, Spans, Spans, bool);

const JOINED: &[Joined] = &[
    (&[], &[], &[], &[], &[], true),
    (&[(0, 1023)], &[], &[(0, 1023)], &[], &[(0, 1023)], true),
    (&[], &[(5, 5)], &[(5, 5)], &[], &[(5, 5)], false),
    (
        &[(0, 63)],
        &[(63, 64)],
        &[(0, 64)],
        &[(63, 63)],
        &[(0, 62), (64, 64)],
        false,
    ),
    (
        &[(60, 70), (1000, 1023)],
        &[(64, 64), (1023, 1023)],
        &[(60, 70), (1000, 1023)],
        &[(64, 64), (1023, 1023)],
        &[(60, 63), (65, 70), (1000, 1022)],
        true,
    ),
    // A span whose last number is before its first has none.
    (&[(5, 3)], &[(3, 5)], &[(3, 5)], &[], &[(3, 5)], false),
];

/// Whether a row is so.
fn are_joined_so(row: Joined) -> bool {
    let (first, second, union, common, apart, includes) = row;
    let first = set_of(first);
    let second = set_of(second);
    first.union(&second) == set_of(union)
        && first.common(&second) == set_of(common)
        && first.apart(&second) == set_of(apart)
        && first.include(&second) == includes
}

#[test]
fn sets_are_joined(rt: HostRuntime) {
    for &row in JOINED {
        let (first, second) = (row.0, row.1);
        assert!(rt; are_joined_so(row), "{first:?} {second:?}");
    }
}

/// How many categories there are, a set, and those that are not in it.
const OTHERS: &[(usize, Spans, Spans)] = &[
    (0, &[], &[]),
    (0, &[(0, 1023)], &[]),
    (1, &[], &[(0, 0)]),
    (64, &[(63, 70)], &[(0, 62)]),
    (65, &[(0, 63)], &[(64, 64)]),
    (1024, &[(0, 9), (1023, 1023)], &[(10, 1022)]),
];

/// Whether a row is so.
fn are_others(count: usize, set: Spans, others: Spans) -> bool {
    count <= 1024 && set_of(set).others(count) == set_of(others)
}

#[test]
fn the_others_are_those_below_a_count(rt: HostRuntime) {
    for &(count, set, others) in OTHERS {
        assert!(rt; are_others(count, set, others), "{count} {set:?}");
    }
}
