//! The steps between statements as edges of a graph, whose cycles `cil_settle` finds in n log n steps.

ghost use Rattle.std.specs.Prelude.{◌≡◌, ◌++◌, IfOk, IsPermutation, OnOk, map};
ghost use Rattle.std.specs.List.Sorted.{IsNonDecreasingBy};
ghost use Rattle.cil_blocks.specs.Steps.{AreFlags, AreSteps, StayBelow, edge_from};

use crate::levels::Steps;
use crate::walker::parts_at;
use cil_base::NoMemory;
use cil_settle::{Cycles, Edge, cycles_of};
use std::alloc::Global;

/// The cycles of the steps: a flag for each statement that leads back to itself.
pub(crate) fn cycles_of_steps(alloc: Global, steps: &Steps) -> Result<Cycles, NoMemory>
    requires { StayBelow steps.now.parts.now steps.now.targets.now steps.now.count }
    ensures { IfOk result (λ c. AreFlags steps.now.parts.now steps.now.targets.now steps.now.count c.on.items) }
{
    let edges = edges_of(alloc, steps)?;
    let cycles = cycles_of(alloc, steps.count, edges.as_slice())?;
    Ok(cycles)
}

/// An edge for each step, sorted by the statements that they leave.
fn edges_of(alloc: Global, steps: &Steps) -> Result<Vec<Edge>, NoMemory>
    ensures sorted { IfOk result (λ edges. IsNonDecreasingBy (λ e. e.from) edges.items) }
    ensures steps { IfOk result (λ edges. AreSteps steps.now.parts.now steps.now.targets.now steps.now.count edges.items) }
{
    let edges = unsorted(alloc, steps)?;
    Ok(sorted(edges))
}

fn sorted(mut edges: Vec<Edge>) -> Vec<Edge>
    ensures sorted { IsNonDecreasingBy (λ e. e.from) result.items }
    ensures same { IsPermutation edges.items result.items }
{
    edges.sort_unstable_by_key(|edge| edge.from);
    edges
}

fn unsorted(alloc: Global, steps: &Steps) -> Result<Vec<Edge>, NoMemory>
    ensures { IfOk result (λ edges. AreSteps steps.now.parts.now steps.now.targets.now steps.now.count edges.items) }
{
    let mut edges = Vec::new(alloc);
    for number in 0..steps.count {
        push_edges(&mut edges, number, parts_at(steps.parts, number))?;
        push_edges(&mut edges, number, steps.targets.at(number))?;
    }
    Ok(edges)
}

/// Adds an edge to each of some statements.
fn push_edges(edges: &mut Vec<Edge>, from: usize, numbers: &[usize]) -> Result<(), NoMemory>
    ensures { OnOk result (edges.new.items ≡ edges.old.items ++ map (edge_from from) numbers.now) }
{
    for number in numbers {
        edges.push(Edge {
            from,
            to: *number,
            counted: false,
        })?;
    }
    Ok(())
}
