//! The nodes that lie on a cycle, and ranks that fall where none does.

ghost use Rattle.std.specs.Prelude.{◌≡◌, ◌<◌, All, IfOk, IfSome, length};
ghost use Rattle.std.specs.List.Sorted.{IsNonDecreasingBy};
ghost use Rattle.cil_settle.specs.Cycles.{AreOnCycles, Fall, HasNoCycle, IsWithin};

use crate::check::checked;
use crate::edge::Edge;
use crate::guess::guessed;
use crate::plain::searched_cycles;
use cil_base::NoMemory;
use std::alloc::Global;

/// What is known of the cycles of a graph.
#[derive(Drop)]
pub struct Cycles {
    /// For each node whether it lies on a cycle: whether a path of one edge or more leads from it to itself.
    pub on: Vec<bool>,
    /// For each node a rank. If no node lies on a cycle, the rank falls along each edge, so that what an edge leads to comes first
    /// where nodes are taken by rising rank. Else ranks say nothing.
    pub ranks: Vec<usize>,
}

/// Which nodes lie on a cycle, and ranks that fall along each edge if none does. The nodes are the numbers below `nodes`, and the
/// edges are sorted by the nodes that they leave; `counted` has no effect. Error: out of memory.
///
/// One search guesses both, and two walks over the edges check the guess: n log n steps, 72 bytes for each edge and some 100 for
/// each node. Nothing is proved of the guess, and nothing rests on it: where the check refuses it the plain way is gone, a search
/// for each node, which costs as many steps as there are nodes times edges. No graph is known for which that happens.
pub fn cycles_of(alloc: Global, nodes: usize, edges: &[Edge]) -> Result<Cycles, NoMemory>
    requires sorted { IsNonDecreasingBy (λ e. e.from) edges.now }
    requires within { All (IsWithin nodes) edges.now }
    ensures on { IfOk result (λ c. AreOnCycles edges.now nodes c.on.items) }
    ensures ranks { IfOk result (λ c. HasNoCycle edges.now → Fall edges.now c.ranks.items) }
{
    if let Some(cycles) = guessed_cycles(alloc, nodes, edges)? {
        return Ok(cycles);
    }
    let cycles = searched_cycles(alloc, nodes, edges)?;
    Ok(cycles)
}

/// What `cycles_of` answers if the check accepts its guess, and none if it goes the plain way. Tests ask which way is gone; other
/// callers have no use for this. Error: out of memory.
pub fn guessed_cycles(
    alloc: Global,
    nodes: usize,
    edges: &[Edge],
) -> Result<Option<Cycles>, NoMemory>
    requires { All (IsWithin nodes) edges.now }
    ensures on { IfOk result (λ r. IfSome r (λ c. AreOnCycles edges.now nodes c.on.items)) }
    ensures ranks { IfOk result (λ r. IfSome r (λ c. HasNoCycle edges.now → Fall edges.now c.ranks.items)) }
{
    let guess = guessed(alloc, nodes, edges)?;
    let Some(on) = checked(alloc, nodes, edges, &guess)? else {
        return Ok(None);
    };
    let ranks = Vec::from_slice(alloc, guess.ranks.as_slice())?;
    Ok(Some(Cycles { on, ranks }))
}
