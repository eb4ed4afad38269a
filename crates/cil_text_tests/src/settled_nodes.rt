//! Which nodes of small graphs go out, and the look-ups that this takes.

ghost use Rattle.std.specs.Prelude.{IsTrue, All};
ghost use Rattle.cil_settle.specs.Settled.{leads_within};

use cil_settle::{Edge, Settled, settle, sort_edges};
use std::alloc::Global;
use std::test::Fail;

/// The node that an edge leaves, the node that it leads to, and whether it counts as a look-up.
type Row = (usize, usize, bool);

/// The edges of a graph, in any order; how many supports each node has to lose before it goes out, what goes out, and the look-ups.
type Graph = (&'static [Row], &'static [usize], &'static [usize], usize);

const GRAPHS: &[Graph] = &[
    (&[], &[], &[], 0),
    (&[], &[0, 1, 0], &[0, 2], 0),
    // One of two supports is enough, it is not enough, and both go out.
    (TWO, &[0, 1, 1], &[0, 2], 1),
    (TWO, &[0, 1, 2], &[0], 1),
    (TWO, &[0, 0, 2], &[0, 1, 2], 2),
    // Two equal edges are two supports; one is fewer than two.
    (&[(0, 1, true), (0, 1, true)], &[0, 2], &[0, 1], 2),
    (&[(0, 1, true)], &[0, 2], &[0], 1),
    // A node that supports itself, a cycle, one with a node outside that puts it out, and one of which each needs that too.
    (&[(0, 0, true)], &[1], &[], 0),
    (&[(0, 1, true), (1, 0, true)], &[1, 1], &[], 0),
    (CYCLE, &[1, 1, 0], &[0, 1, 2], 3),
    (NEEDED, &[2, 2, 0], &[2], 0),
    (&[(0, 1, true), (2, 1, true)], &[0, 1, 0], &[0, 1, 2], 2),
    // Edges that are no look-ups, and edges of nodes that stay.
    (STAYING, &[0, 1, 1, 2], &[0, 1, 2], 2),
    // The optionals 0 and 3 in a chain declare 1 and 4 and have the words 2 and 5: 2 names 4, and 5 nothing.
    (CHAIN, &[1, 1, 1, 1, 1, 0], &[0, 1, 2, 3, 4, 5], 3),
];

const TWO: &[Row] = &[(0, 2, true), (1, 2, true)];

const CYCLE: &[Row] = &[(2, 0, true), (0, 1, true), (1, 0, true)];

const NEEDED: &[Row] = &[(2, 0, false), (0, 1, true), (1, 0, true), (2, 1, false)];

const STAYING: &[Row] = &[(0, 1, true), (0, 2, false), (3, 1, true), (1, 3, true)];

const CHAIN: &[Row] = &[
    (0, 1, true),
    (2, 0, false),
    (3, 4, true),
    (4, 2, true),
    (5, 3, false),
];

/// Whether each edge leads to one of so many nodes.
pub fn lead_within(edges: &[Edge], nodes: usize) -> bool
    ensures { IsTrue result → All (leads_within nodes) edges.now }
{
    edges.iter().all(|edge| edge.to < nodes)
}

/// What goes out, with the nodes in the order of their numbers. None where there is no memory, or an edge leads to no node.
fn settled(alloc: Global, rows: &[Row], need: &[usize]) -> Option<Settled> {
    let mut edges = Vec::new(alloc);
    for &(from, to, counted) in rows {
        edges.push(Edge { from, to, counted }).ok()?;
    }
    sort_edges(edges.as_mut_slice());
    if !lead_within(edges.as_slice(), need.len()) {
        return None;
    }
    let need = Vec::from_slice(alloc, need).ok()?;
    let mut settled = settle(alloc, edges.as_slice(), need).ok()?;
    settled.order.sort_unstable();
    Some(settled)
}

#[test]
fn what_goes_out(rt: HostRuntime) -> Result<(), Fail> {
    let alloc = rt.alloc();
    for &(edges, need, order, lookups) in GRAPHS {
        let settled = settled(alloc, edges, need).ok_or("no memory")?;
        let is_so = settled.order.as_slice() == order && settled.lookups == lookups;
        assert!(rt; is_so, "{edges:?} {need:?}");
    }
    Ok(())
}

/// A chain of 1,000 optionals like these two: that at k has the node 3 k, its declared name 3 k + 1, and its word 3 k + 2.
fn chain(alloc: Global) -> Result<Vec<Row>, Fail> {
    let mut rows = Vec::new(alloc);
    for at in 0..1000 {
        rows.push((3 * at, 3 * at + 1, true))?;
        rows.push((3 * at + 2, 3 * at, false))?;
        if at > 0 {
            rows.push((3 * at + 1, 3 * at - 1, true))?;
        }
    }
    Ok(rows)
}

#[test]
fn a_chain_goes_out(rt: HostRuntime) -> Result<(), Fail> {
    let alloc = rt.alloc();
    let mut need = vec![in alloc; 1; 2999]?;
    need.push(0)?;
    let settled = settled(alloc, chain(alloc)?.as_slice(), need.as_slice()).ok_or("no memory")?;
    assert_eq!(rt; settled.order.len(), 3000);
    assert_eq!(rt; settled.lookups, 1999);
    Ok(())
}

/// The look-ups of two supports that go out, one after another.
fn look_ups_of_two(alloc: Global) -> Option<usize> {
    Some(settled(alloc, &[(0, 1, true), (1, 2, true)], &[0, 1, 1])?.lookups)
}

#[test]
fn a_refused_growth_of_the_order(rt: HostRuntime) {
    let alloc = rt.alloc();
    let lookups = look_ups_of_two(alloc).or_else(|| look_ups_of_two(alloc));
    assert_eq!(rt; lookups, Some(2));
}
