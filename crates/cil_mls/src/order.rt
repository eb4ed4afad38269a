//! The one order of some items, as of the sensitivities of a policy or of its categories.

ghost use Rattle.std.specs.Prelude.{◌↔◌, ◌<◌, All, IfOk, IsPermutation, IsTrue, MatchOption};
ghost use Rattle.std.specs.List.Sorted.{IsNonDecreasingBy};
ghost use Rattle.cil_settle.specs.Cycles.{IsWithin};
ghost use Rattle.cil_mls.specs.Edges.{IsFixed, IsNotFixed};
ghost use Rattle.cil_mls.specs.OrderSteps.{AreNeighbours, HasAll, HasEdgeTo, IsCounted};

use cil_base::NoMemory;
use cil_settle::{Edge, leaving_from, settle, sort_edges};
use std::alloc::Global;

/// The one order of the numbers below `count` that edges fix, from the lowest number to the highest: an edge leads from a number to
/// one that is above it. None where there is no such order, as where a number is above itself, or where there are several. CIL
/// Reference Guide, "sensitivityorder" and "categoryorder": an edge leads from each item of a statement to the next one; that just
/// one order has to be fixed is this project's rule.
///
/// Equal edges say the same as one, and `counted` has no effect. One number without edges has one order, and so have no numbers.
/// The edges are sorted; it costs that, a walk along each of them and a search by halving for each number: n log n steps, whatever
/// the edges are. It takes memory for each number, and none for edges. Errors: out of memory.
pub fn order_of(
    alloc: Global,
    edges: &mut [Edge],
    count: usize,
) -> Result<Option<Vec<usize>>, NoMemory>
    requires { All (IsWithin count) edges.now }
    ensures order { IfOk result (λ order. MatchOption order (IsNotFixed count edges.old) (λ row. IsFixed count edges.old row.items)) }
    ensures same { IsPermutation edges.old edges.new }
{
    sort_edges(edges);
    order_along(alloc, edges, count)
}

/// The one order of the numbers below a count, by edges that are sorted.
fn order_along(alloc: Global, edges: &[Edge], count: usize) -> Result<Option<Vec<usize>>, NoMemory>
    requires sorted { IsNonDecreasingBy (λ e. e.from) edges.now }
    requires within { All (IsWithin count) edges.now }
    ensures { IfOk result (λ order. MatchOption order (IsNotFixed count edges.now) (λ row. IsFixed count edges.now row.items)) }
{
    let need = needs_of(alloc, edges, count)?;
    let order = settle(alloc, edges, need)?.order;
    if !has_all(alloc, order.as_slice(), count)? {
        return Ok(None);
    }
    if !are_joined(edges, order.as_slice()) {
        return Ok(None);
    }
    Ok(Some(order))
}

/// How many edges lead to each number below a count. A node that needs so many supports goes out when all that are below it are
/// out.
fn needs_of(alloc: Global, edges: &[Edge], count: usize) -> Result<Vec<usize>, NoMemory>
    requires { All (IsWithin count) edges.now }
    ensures { IfOk result (λ need. IsCounted edges.now count need.items) }
{
    let mut need = vec![in alloc; 0; count]?;
    let mut at = 0;
    while at < edges.len() {
        need[edges[at].to] += 1;
        at += 1;
    }
    Ok(need)
}

/// Whether each number below a count is in a list of such numbers.
fn has_all(alloc: Global, order: &[usize], count: usize) -> Result<bool, NoMemory>
    requires { All (λ v. v < count) order.now }
    ensures { IfOk result (λ all. IsTrue all ↔ HasAll count order.now) }
{
    let mut marks = vec![in alloc; false; count]?;
    for &number in order {
        marks[number] = true;
    }
    Ok(marks.iter().all(|mark| *mark))
}

/// Whether an edge leads from each number of a list to the next one. If not, these two can change places, and the order is not the
/// only one.
fn are_joined(edges: &[Edge], order: &[usize]) -> bool
    requires { IsNonDecreasingBy (λ e. e.from) edges.now }
    ensures { IsTrue result ↔ AreNeighbours edges.now order.now }
{
    let mut at = 1;
    while at < order.len() {
        if !leads(leaving_from(edges, order[at - 1]), order[at]) {
            return false;
        }
        at += 1;
    }
    true
}

/// Whether one of some edges leads to a number.
fn leads(edges: &[Edge], to: usize) -> bool
    ensures { IsTrue result ↔ HasEdgeTo edges.now to }
{
    edges.iter().any(|edge| edge.to == to)
}
