//! The walk along the edges of all that goes out.

ghost use Rattle.std.specs.Prelude.{◌≡◌, length, All, IfOk};
ghost use Rattle.std.specs.List.Sorted.{IsNonDecreasingBy};
ghost use Rattle.cil_settle.specs.Settled.{walked, IsSettled, leads_within};

use crate::edge::{Edge, leaving_from};
use crate::supports::{at_start, lower_all};
use cil_base::NoMemory;
use std::alloc::Global;

/// What goes out.
#[derive(Drop)]
pub struct Settled {
    /// The nodes that go out, each once. Each has lost what it needs by the nodes before it alone.
    pub order: Vec<usize>,
    /// The look-ups that this took: one for each counted edge that leaves a node that goes out.
    pub lookups: usize,
}

/// The nodes that go out. There is a node for each number below the length of `need`, and `need` has how many supports it has to
/// lose before it goes out: with 0 it is out from the start, with 1 it goes out with any support, and with more than lead to it
/// never. The edges are sorted by the nodes that they leave. Nodes on a cycle go out only if something outside of it puts one
/// of them out.
///
/// Each edge is walked once at most, and the edges of each node that goes out are found by halving: n log n steps, whatever the
/// edges are.
pub fn settle(alloc: Global, edges: &[Edge], need: Vec<usize>) -> Result<Settled, NoMemory>
    requires sorted { IsNonDecreasingBy (λ e. e.from) edges.now }
    requires within { All (leads_within (length need.items)) edges.now }
    ensures order { IfOk result (λ s. IsSettled edges.now need.items s.order.items) }
    ensures lookups { IfOk result (λ s. s.lookups ≡ walked edges.now s.order.items) }
{
    let mut left = need;
    let mut order = at_start(alloc, left.as_slice())?;
    let mut next = 0;
    let mut lookups = 0;
    while next < order.len() {
        let row = leaving_from(edges, order[next]);
        let more = lower_all(&mut left, &mut order, row)?;
        lookups += more;
        next += 1;
    }
    Ok(Settled { order, lookups })
}
