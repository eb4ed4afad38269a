//! Which nodes of graphs lie on a cycle, and that the check accepts the guess on each.

ghost use Rattle.std.specs.Prelude.{IsTrue, All};
ghost use Rattle.std.specs.List.Sorted.{IsNonDecreasingBy};
ghost use Rattle.cil_settle.specs.Cycles.{IsWithin};

use cil_settle::{Cycles, Edge, cycles_of, guessed_cycles, searched_cycles, sort_edges};
use std::alloc::Global;
use std::test::Fail;

/// How many nodes there are, the edges in any order, and the nodes that lie on a cycle.
type Graph = (usize, &'static [(usize, usize)], &'static [usize]);

const GRAPHS: &[Graph] = &[
    (0, &[], &[]),
    (2, &[], &[]),
    // A line, a ring, and an edge from a node to itself, to which a line leads.
    (4, &[(2, 3), (0, 1), (1, 2)], &[]),
    (4, &[(3, 0), (2, 3), (0, 1), (1, 2)], &[0, 1, 2, 3]),
    (3, &[(0, 1), (1, 2), (2, 2)], &[2]),
    // Two rings and a path from the one to the other, which is on no cycle; two rings that share a node.
    (6, PATH, &[0, 1, 4, 5]),
    (5, &[(0, 1), (1, 0), (1, 2), (2, 1), (3, 4)], &[0, 1, 2]),
    // Two ways to one node, and two equal edges.
    (4, &[(0, 1), (0, 2), (1, 3), (2, 3), (2, 3)], &[]),
];

const PATH: &[(usize, usize)] = &[(0, 1), (1, 0), (1, 2), (2, 3), (3, 4), (4, 5), (5, 4)];

/// Whether each edge leads from one of so many nodes to another.
fn are_within(edges: &[Edge], nodes: usize) -> bool
    ensures { IsTrue result → All (IsWithin nodes) edges.now }
{
    edges
        .iter()
        .all(|edge| edge.from < nodes && edge.to < nodes)
}

fn edges_of(alloc: Global, rows: &[(usize, usize)]) -> Option<Vec<Edge>> {
    let mut edges = Vec::new(alloc);
    for &(from, to) in rows {
        let counted = false;
        edges.push(Edge { from, to, counted }).ok()?;
    }
    Some(edges)
}

/// Whether the nodes on cycles are these, in rising order, and ranks fall along each edge if there are none.
fn has_just(alloc: Global, cycles: &Cycles, edges: &[Edge], nodes: &[usize]) -> Option<bool> {
    let mut on = Vec::new(alloc);
    for (node, &flag) in cycles.on.iter().enumerate() {
        if flag {
            on.push(node).ok()?;
        }
    }
    let ranks = cycles.ranks.as_slice();
    let fall = edges
        .iter()
        .all(|edge| ranks.get(edge.to) < ranks.get(edge.from));
    Some(on.as_slice() == nodes && fall == nodes.is_empty())
}

/// How a graph is answered: as callers ask, by a guess that the check accepts, or by a search for each node.
#[derive(Clone, Copy, Debug)]
enum Way {
    Asked,
    Guessed,
    Searched,
}

const WAYS: &[Way] = &[Way::Asked, Way::Guessed, Way::Searched];

/// What is answered. None where there is no memory, the check refuses the guess, or an edge is of no node.
fn answer(alloc: Global, nodes: usize, edges: &[Edge], way: Way) -> Option<Cycles>
    requires { IsNonDecreasingBy (λ e. e.from) edges.now }
{
    if !are_within(edges, nodes) {
        return None;
    }
    match way {
        Way::Asked => cycles_of(alloc, nodes, edges).ok(),
        Way::Guessed => guessed_cycles(alloc, nodes, edges).ok()?,
        Way::Searched => searched_cycles(alloc, nodes, edges).ok(),
    }
}

/// Whether just these nodes are on cycles. None where there is no memory or no such answer.
fn is_so(alloc: Global, graph: (usize, &[(usize, usize)], &[usize]), way: Way) -> Option<bool> {
    let (nodes, rows, on) = graph;
    let mut edges = edges_of(alloc, rows)?;
    sort_edges(edges.as_mut_slice());
    let cycles = answer(alloc, nodes, edges.as_slice(), way)?;
    has_just(alloc, &cycles, edges.as_slice(), on)
}

#[test]
fn a_refused_growth_of_cycles(rt: HostRuntime) {
    let alloc = rt.alloc();
    for &graph in GRAPHS {
        for &way in WAYS {
            let got = is_so(alloc, graph, way).or_else(|| is_so(alloc, graph, way));
            let edges = graph.1;
            assert!(rt; got == Some(true), "{edges:?} {way:?}");
        }
    }
}

/// An edge from each node to the next, of 250,000.
fn long_line(alloc: Global) -> Result<Vec<(usize, usize)>, Fail> {
    let mut rows = Vec::new(alloc);
    for node in 1..250_000usize {
        rows.push((node - 1, node))?;
    }
    Ok(rows)
}

#[test]
fn a_long_line(rt: HostRuntime) -> Result<(), Fail> {
    let alloc = rt.alloc();
    let rows = long_line(alloc)?;
    let graph = (250_000, rows.as_slice(), [].as_slice());
    assert_eq!(rt; is_so(alloc, graph, Way::Guessed), Some(true));
    Ok(())
}

#[test]
fn a_long_ring(rt: HostRuntime) -> Result<(), Fail> {
    let alloc = rt.alloc();
    let mut rows = long_line(alloc)?;
    rows.push((249_999, 0))?;
    let mut all = Vec::new(alloc);
    for node in 0..250_000usize {
        all.push(node)?;
    }
    let graph = (250_000, rows.as_slice(), all.as_slice());
    assert_eq!(rt; is_so(alloc, graph, Way::Guessed), Some(true));
    Ok(())
}
