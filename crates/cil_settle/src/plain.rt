//! The plain way: one search for each node.

ghost use Rattle.std.specs.Prelude.{◌≡◌, ◌<◌, ◌≤◌, ◌↔◌, All, IfOk, OnOk, List, get_or, length, true, false, ℕ, ◌+◌};
ghost use Rattle.std.specs.List.{count_by};
ghost use Rattle.std.specs.List.Sorted.{IsNonDecreasingBy};
ghost use Rattle.cil_settle.specs.declared.edge.Edge as an_edge;
ghost use Rattle.cil_settle.specs.Cycles.{AreOnCycles, Fall, HasNoCycle, IsWithin, Leads, Reaches};
ghost use Rattle.cil_settle.specs.Plain.{AreBehind, AreCounted, AreStartsOf, is_set};

use crate::cycles::Cycles;
use crate::edge::Edge;
use crate::reach::reached;
use cil_base::NoMemory;
use std::alloc::Global;

/// What `cycles_of` answers if it goes the plain way: a node lies on a cycle if it reaches itself, and its rank is how many nodes it
/// reaches. It costs a search for each node. Tests run it; other callers have no use for this. Error: out of memory.
pub fn searched_cycles(alloc: Global, nodes: usize, edges: &[Edge]) -> Result<Cycles, NoMemory>
    requires sorted { IsNonDecreasingBy (λ e. e.from) edges.now }
    requires within { All (IsWithin nodes) edges.now }
    ensures on { IfOk result (λ c. AreOnCycles edges.now nodes c.on.items) }
    ensures ranks { IfOk result (λ c. HasNoCycle edges.now → Fall edges.now c.ranks.items) }
{
    let mut on = Vec::new(alloc);
    let mut ranks = Vec::new(alloc);
    for node in 0..nodes {
        let flags = behind(alloc, nodes, edges, node)?;
        on.push(flag_at(flags.as_slice(), node))?;
        ranks.push(count(flags.as_slice()))?;
    }
    Ok(Cycles { on, ranks })
}

/// The nodes that a node reaches.
fn behind(alloc: Global, nodes: usize, edges: &[Edge], node: usize) -> Result<Vec<bool>, NoMemory>
    requires sorted { IsNonDecreasingBy (λ e. e.from) edges.now }
    requires within { All (IsWithin nodes) edges.now }
    ensures { IfOk result (λ flags. AreBehind edges.now nodes node flags.items) }
{
    let need = starts(alloc, nodes, edges, node)?;
    let flags = reached(alloc, edges, need)?;
    Ok(flags)
}

/// 0 for each node to which an edge leads from this one, and 1 for each other.
fn starts(alloc: Global, nodes: usize, edges: &[Edge], node: usize) -> Result<Vec<usize>, NoMemory>
    requires { All (IsWithin nodes) edges.now }
    ensures { IfOk result (λ need. AreStartsOf edges.now nodes node need.items) }
{
    let mut need = ones(alloc, nodes)?;
    for edge in edges {
        if edge.from == node {
            need[edge.to] = 0;
        }
    }
    Ok(need)
}

/// As many ones.
fn ones(alloc: Global, nodes: usize) -> Result<Vec<usize>, NoMemory>
    ensures len { IfOk result (λ need. length need.items ≡ nodes) }
    ensures ones { IfOk result (λ need. (v : ℕ) → v < nodes → get_or need.items v 0 ≡ 1) }
{
    let mut need = Vec::with_capacity(alloc, nodes)?;
    for node in 0..nodes {
        let _node = node;
        need.push(1)?;
    }
    Ok(need)
}

/// The flag at a place; not set where there is none.
pub fn flag_at(flags: &[bool], place: usize) -> bool
    ensures { result ≡ get_or flags.now place false }
{
    match flags.get(place) {
        Some(flag) => *flag,
        None => false,
    }
}

/// How many flags are set.
fn count(flags: &[bool]) -> usize
    ensures { result ≡ count_by is_set flags.now }
{
    let mut set = 0;
    for flag in flags {
        if *flag {
            set += 1;
        }
    }
    set
}
