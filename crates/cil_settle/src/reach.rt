//! What is reached from some nodes, along edges.

ghost use Rattle.std.specs.Prelude.{◌≡◌, ◌<◌, All, IfOk, length, ℕ, get_or, false};
ghost use Rattle.std.specs.List.Sorted.{IsNonDecreasingBy};
ghost use Rattle.cil_base.specs.Among.{among};
ghost use Rattle.cil_settle.specs.Settled.{leads_within};
ghost use Rattle.cil_settle.specs.Reached.{AreReached, AreStarts};

use crate::edge::Edge;
use crate::settled::settle;
use cil_base::NoMemory;
use std::alloc::Global;

/// The nodes that are reached from the starts, the starts among them, as a flag for each node. `need` has 0 for each start and 1
/// for each other node. The edges are sorted by the nodes that they leave. It costs n log n steps.
pub fn reached(alloc: Global, edges: &[Edge], need: Vec<usize>) -> Result<Vec<bool>, NoMemory>
    requires sorted { IsNonDecreasingBy (λ e. e.from) edges.now }
    requires within { All (leads_within (length need.items)) edges.now }
    requires starts { AreStarts need.items }
    ensures { IfOk result (λ flags. AreReached edges.now need.items flags.items) }
{
    let nodes = need.len();
    let settled = settle(alloc, edges, need)?;
    let flags = marks(alloc, nodes, settled.order.as_slice())?;
    Ok(flags)
}

/// Flags for the nodes of a list.
fn marks(alloc: Global, nodes: usize, order: &[usize]) -> Result<Vec<bool>, NoMemory>
    ensures len { IfOk result (λ flags. length flags.items ≡ nodes) }
    ensures each { IfOk result (λ flags. (v : ℕ) → v < nodes → get_or flags.items v false ≡ among order.now v) }
{
    let mut flags = no_flags(alloc, nodes)?;
    for node in order {
        if *node < nodes {
            flags[*node] = true;
        }
    }
    Ok(flags)
}

/// As many flags, none set.
pub fn no_flags(alloc: Global, nodes: usize) -> Result<Vec<bool>, NoMemory>
    ensures len { IfOk result (λ flags. length flags.items ≡ nodes) }
    ensures none { IfOk result (λ flags. (v : ℕ) → get_or flags.items v false ≡ false) }
{
    let mut flags = Vec::with_capacity(alloc, nodes)?;
    for node in 0..nodes {
        let _node = node;
        flags.push(false)?;
    }
    Ok(flags)
}
