//! How many supports each node can still lose, and what goes out with the last of them.

ghost use Rattle.std.specs.Prelude.{◌≡◌, ◌<◌, ◌++◌, ℕ, List, length, All, OnOk, IfOk};
ghost use Rattle.std.specs.List.{count_by};
ghost use Rattle.cil_settle.specs.Settled.{is_counted, leads_within, needs};
ghost use Rattle.cil_settle.specs.Walk.{IsAt, Loses, no_hits, one_more, plus};

use crate::edge::Edge;
use cil_base::NoMemory;
use std::alloc::Global;

/// The nodes that are out from the start: those that can lose nothing.
pub fn at_start(alloc: Global, left: &[usize]) -> Result<Vec<usize>, NoMemory>
    ensures { IfOk result (λ order. IsAt (needs left.now) no_hits left.now order.items) }
{
    let mut order = Vec::new(alloc);
    for (node, &count) in left.iter().enumerate() {
        if count == 0 {
            order.push(node)?;
        }
    }
    Ok(order)
}

/// Takes the supports away that go with one node, and answers how many look-ups that took.
pub fn lower_all(
    left: &mut Vec<usize>,
    order: &mut Vec<usize>,
    edges: &[Edge],
) -> Result<usize, NoMemory>
    requires { All (leads_within (length left.now.items)) edges.now }
    ensures at { OnOk result (Loses (λ h. plus h edges.now) left.old.items order.old.items left.new.items order.new.items) }
    ensures grows { OnOk result ((more : List ℕ) × (order.new.items ≡ order.old.items ++ more)) }
    ensures len { length left.new.items ≡ length left.old.items }
    ensures lookups { IfOk result (λ n. n ≡ count_by is_counted edges.now) }
{
    let mut lookups = 0;
    for edge in edges {
        lower(left, order, edge.to)?;
        if edge.counted {
            lookups += 1;
        }
    }
    Ok(lookups)
}

/// Takes a support from a node, and puts the node behind those that are out if it was the last that it could lose.
fn lower(left: &mut Vec<usize>, order: &mut Vec<usize>, to: usize) -> Result<(), NoMemory>
    requires { to < length left.now.items }
    ensures at { OnOk result (Loses (λ h. one_more h to) left.old.items order.old.items left.new.items order.new.items) }
    ensures grows { OnOk result ((more : List ℕ) × (order.new.items ≡ order.old.items ++ more)) }
    ensures len { length left.new.items ≡ length left.old.items }
{
    let now = left[to];
    if now == 0 {
        return Ok(());
    }
    left[to] = now - 1;
    if now == 1 {
        order.push(to)?;
    }
    Ok(())
}
