//! Masks that flow along edges.

ghost use Rattle.std.specs.Prelude.{◌≡◌, ◌<◌, ◌∷◌, [], All, IfOk, OnOk, length, map};
ghost use Rattle.std.specs.List.Sorted.{IsNonDecreasingBy};
ghost use Rattle.cil_settle.specs.Settled.{leads_within};
ghost use Rattle.cil_settle.specs.Spread.{IsBegun, IsBegunAt, IsJoined, IsSpread, most_masks};

use crate::edge::{Edge, leaving_from};
use cil_base::NoMemory;
use std::alloc::Global;

/// The masks of nodes that have the bits that they start with, and those of every node from which they can be reached. There is a
/// node for each number below the length of `masks`, and `masks` has what each starts with. The edges are sorted by the nodes
/// that they leave, and may lead in circles; `counted` has no effect. Error: out of memory.
///
/// A node waits in a queue at the start if it has some bit, and again each time its mask has grown: 32 times at most. So each edge
/// is walked 32 times at most, whatever the edges are; the edges of a node are found by halving each time. The queue takes 8 bytes
/// for each time that a node waits. The bad case is a long circle that bits enter one by one.
pub fn spread(alloc: Global, edges: &[Edge], masks: Vec<u32>) -> Result<Vec<u32>, NoMemory>
    requires sorted { IsNonDecreasingBy (λ e. e.from) edges.now }
    requires within { All (leads_within (length masks.items)) edges.now }
    ensures { IfOk result (λ all. IsSpread edges.now masks.items all.items) }
{
    let mut all = masks;
    let mut queue = begun(alloc, all.as_slice())?;
    let mut next = 0;
    while next < queue.len() {
        let from = queue[next];
        let mask = all[from];
        let row = leaving_from(edges, from);
        join_all(&mut all, &mut queue, row, mask)?;
        next += 1;
    }
    Ok(all)
}

/// The nodes that start with some bit.
fn begun(alloc: Global, masks: &[u32]) -> Result<Vec<usize>, NoMemory>
    ensures { IfOk result (λ queue. IsBegun masks.now queue.items (length masks.now)) }
{
    let mut queue = Vec::new(alloc);
    for node in 0..masks.len() {
        begin(&mut queue, node, masks[node])?;
    }
    Ok(queue)
}

/// Puts a node that has some bit behind the others.
fn begin(queue: &mut Vec<usize>, node: usize, mask: u32) -> Result<(), NoMemory>
    ensures node { OnOk result (IsBegunAt queue.old.items node mask queue.new.items) }
    ensures fits { mask < most_masks }
{
    if mask == 0 {
        return Ok(());
    }
    queue.push(node)?;
    Ok(())
}

/// Adds the bits of a mask to each node to which some edges lead. A node whose mask grows is put behind the others.
fn join_all(
    all: &mut Vec<u32>,
    queue: &mut Vec<usize>,
    edges: &[Edge],
    mask: u32,
) -> Result<(), NoMemory>
    requires { All (leads_within (length all.now.items)) edges.now }
    ensures joined { OnOk result (IsJoined all.old.items queue.old.items (map (λ e. e.to) edges.now) mask all.new.items queue.new.items) }
    ensures len { length all.new.items ≡ length all.old.items }
{
    for edge in edges {
        join(all, queue, edge.to, mask)?;
    }
    Ok(())
}

/// Adds the bits of a mask to a node, and puts it behind the others if its mask grows.
fn join(all: &mut Vec<u32>, queue: &mut Vec<usize>, to: usize, mask: u32) -> Result<(), NoMemory>
    requires { to < length all.now.items }
    ensures joined { OnOk result (IsJoined all.old.items queue.old.items (to ∷ []) mask all.new.items queue.new.items) }
    ensures len { length all.new.items ≡ length all.old.items }
{
    let old = all[to];
    let joined = old | mask;
    if joined == old {
        return Ok(());
    }
    all[to] = joined;
    queue.push(to)?;
    Ok(())
}
