//! Which bits the nodes of graphs have: each has those of every node from which it can be reached.

use crate::settled_nodes::lead_within;
use cil_settle::{Edge, sort_edges, spread};
use std::alloc::Global;
use std::test::Fail;

/// The node that an edge leaves, and the node that it leads to.
type Row = (usize, usize);

/// The edges of a graph, in any order; the mask that each node starts with, and the one that it has.
type Graph = (&'static [Row], &'static [u32], &'static [u32]);

const GRAPHS: &[Graph] = &[
    (&[], &[], &[]),
    (&[], &[1, 0, 6], &[1, 0, 6]),
    // Along an edge and not against it; all bits; no bits.
    (&[(0, 1)], &[4, 3], &[4, 7]),
    (&[(1, 0)], &[0, 0xffff_ffff], &[0xffff_ffff, 0xffff_ffff]),
    (&[(0, 1), (1, 0)], &[0, 0], &[0, 0]),
    // An edge from a node to itself, alone and where bits come in.
    (&[(0, 0)], &[5], &[5]),
    (&[(1, 1), (0, 1), (1, 2)], &[1, 2, 0], &[1, 3, 3]),
    // Two ways to one node, two equal edges, and a node that leads nowhere.
    (TWO_WAYS, &[1, 2, 4, 0, 8], &[1, 3, 5, 7, 8]),
    // A circle of two; node 1 in two circles, with a node that leads to them and one to which they lead.
    (&[(0, 1), (1, 0)], &[1, 2], &[3, 3]),
    (TWO_CIRCLES, &[1, 2, 4, 8, 16], &[15, 15, 15, 8, 31]),
];

const TWO_WAYS: &[Row] = &[(2, 3), (1, 3), (0, 1), (0, 2), (0, 2)];

const TWO_CIRCLES: &[Row] = &[(3, 0), (0, 1), (1, 0), (1, 2), (2, 1), (2, 4)];

/// The masks that nodes have. None where there is no memory, or an edge leads to no node.
fn masks_of(alloc: Global, rows: &[Row], start: &[u32]) -> Option<Vec<u32>> {
    let mut edges = Vec::new(alloc);
    for &(from, to) in rows {
        let counted = false;
        edges.push(Edge { from, to, counted }).ok()?;
    }
    sort_edges(edges.as_mut_slice());
    if !lead_within(edges.as_slice(), start.len()) {
        return None;
    }
    let start = Vec::from_slice(alloc, start).ok()?;
    spread(alloc, edges.as_slice(), start).ok()
}

/// Whether nodes have just these masks. None where there is no memory.
fn is_so(alloc: Global, rows: &[Row], start: &[u32], want: &[u32]) -> Option<bool> {
    let masks = masks_of(alloc, rows, start)?;
    Some(masks.as_slice() == want)
}

#[test]
fn a_refused_growth_of_masks(rt: HostRuntime) {
    let alloc = rt.alloc();
    for &(rows, start, want) in GRAPHS {
        let got = is_so(alloc, rows, start, want).or_else(|| is_so(alloc, rows, start, want));
        assert!(rt; got == Some(true), "{rows:?} {start:?}");
    }
}

/// An edge from each of 1,000 nodes to the next, the last first, and one from the last to the first if it is a circle.
fn long(alloc: Global, is_circle: bool) -> Result<Vec<Row>, Fail> {
    let mut rows = Vec::new(alloc);
    for node in 1..1000usize {
        rows.push((999 - node, 1000 - node))?;
    }
    if is_circle {
        rows.push((999, 0))?;
    }
    Ok(rows)
}

/// Whether it is a circle, and the masks of the first half of the nodes, of the second half, and of the last node.
const LONG: &[(bool, u32, u32, u32)] = &[(false, 1, 3, 7), (true, 7, 7, 7)];

/// Masks of 1,000 nodes: of the first half, of the second half, and of the last.
fn thousand(alloc: Global, first: u32, second: u32, last: u32) -> Result<Vec<u32>, Fail> {
    let mut masks = Vec::new(alloc);
    for node in 0..1000usize {
        if node < 500 {
            masks.push(first)?;
        } else if node < 999 {
            masks.push(second)?;
        } else {
            masks.push(last)?;
        }
    }
    Ok(masks)
}

#[test]
fn bits_along_a_thousand_nodes(rt: HostRuntime) -> Result<(), Fail> {
    let alloc = rt.alloc();
    let mut start = vec![in alloc; 0u32; 1000]?;
    start[0] = 1;
    start[500] = 2;
    start[999] = 4;
    for &(is_circle, first, second, last) in LONG {
        let rows = long(alloc, is_circle)?;
        let want = thousand(alloc, first, second, last)?;
        let got = is_so(alloc, rows.as_slice(), start.as_slice(), want.as_slice());
        assert!(rt; got == Some(true), "{is_circle}");
    }
    Ok(())
}

/// Each node of 32 starts with the bit of its number and leads to the one before it, and the first leads to one more. So that one
/// gets a bit at a time, 32 times.
#[test]
fn bits_that_come_one_by_one(rt: HostRuntime) -> Result<(), Fail> {
    let alloc = rt.alloc();
    let mut rows = vec![in alloc; (0usize, 32usize)]?;
    let mut start = vec![in alloc; 1u32]?;
    let mut want = vec![in alloc; u32::MAX]?;
    for bit in 1..32usize {
        rows.push((bit, bit - 1))?;
        start.push(1 << bit)?;
        want.push(u32::MAX << bit)?;
    }
    start.push(0)?;
    want.push(u32::MAX)?;
    let got = is_so(alloc, rows.as_slice(), start.as_slice(), want.as_slice());
    assert_eq!(rt; got, Some(true));
    Ok(())
}
