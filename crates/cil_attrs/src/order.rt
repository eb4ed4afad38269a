//! Which sets depend on themselves, and an order in which each set is made before it is named.

ghost use Rattle.std.specs.Prelude.{◌≡◌, ◌↔◌, ◌++◌, IfOk, IsPermutation, OnOk, false, get_or, true, ℕ};
ghost use Rattle.std.specs.List.Sorted.{IsNonDecreasingBy};
ghost use Rattle.cil_attrs.specs.Made.{AreSetsAt};
ghost use Rattle.cil_attrs.specs.Order.{Depends, FallFor, IsAcyclic, edge_to, edges_by, edges_in, is_set, is_set_at};

use crate::evaluator::Held;
use crate::making::Given;
use cil_base::NoMemory;
use cil_settle::{Cycles, Edge, cycles_of};
use std::alloc::Global;

/// Which sets depend on themselves, by the numbers of their entries, and ranks in whose order each set can be made before an
/// expression names it if none does. It costs a step for each word, a sort, and a walk over the names of sets in expressions. Error:
/// out of memory.
pub fn cycles_of_sets(alloc: Global, held: &[Held], givens: &[Given]) -> Result<Cycles, NoMemory>
    requires { AreSetsAt held.now givens.now }
    ensures on { IfOk result (λ c. (d : ℕ) → (get_or c.on.items d false ≡ true) ↔ Depends held.now givens.now d d) }
    ensures ranks { IfOk result (λ c. IsAcyclic held.now givens.now → FallFor held.now givens.now c.ranks.items) }
{
    let edges = edges_of(alloc, held, givens)?;
    let cycles = cycles_of(alloc, held.len(), edges.as_slice())?;
    Ok(cycles)
}

/// The edges from sets to those that their expressions name, sorted by the sets that they leave.
fn edges_of(alloc: Global, held: &[Held], givens: &[Given]) -> Result<Vec<Edge>, NoMemory>
    ensures sorted { IfOk result (λ edges. IsNonDecreasingBy (λ e. e.from) edges.items) }
    ensures same { IfOk result (λ edges. IsPermutation (edges_in held.now givens.now) edges.items) }
{
    let edges = unsorted(alloc, held, givens)?;
    Ok(sorted(edges))
}

fn sorted(mut edges: Vec<Edge>) -> Vec<Edge>
    ensures sorted { IsNonDecreasingBy (λ e. e.from) result.items }
    ensures same { IsPermutation edges.items result.items }
{
    edges.sort_unstable_by_key(|edge| edge.from);
    edges
}

fn unsorted(alloc: Global, held: &[Held], givens: &[Given]) -> Result<Vec<Edge>, NoMemory>
    ensures { IfOk result (λ edges. edges.items ≡ edges_in held.now givens.now) }
{
    let mut edges = Vec::new(alloc);
    for given in givens {
        push_edges(&mut edges, held, given)?;
    }
    Ok(edges)
}

/// The edges from one set, by the words of one expression.
fn push_edges(edges: &mut Vec<Edge>, held: &[Held], given: &Given) -> Result<(), NoMemory>
    ensures { OnOk result (edges.new.items ≡ edges.old.items ++ edges_by held.now given.now) }
{
    for word in given.words {
        push_edge(edges, held, given.set, word.entry())?;
    }
    Ok(())
}

fn push_edge(
    edges: &mut Vec<Edge>,
    held: &[Held],
    from: usize,
    meaning: Option<usize>,
) -> Result<(), NoMemory>
    ensures { OnOk result (edges.new.items ≡ edges.old.items ++ edge_to held.now from meaning) }
{
    let Some(to) = meaning else {
        return Ok(());
    };
    if is_set_at(held, to) {
        edges.push(Edge {
            from,
            to,
            counted: false,
        })?;
    }
    Ok(())
}

/// Whether an entry holds a set.
fn is_set_at(held: &[Held], place: usize) -> bool
    ensures { result ≡ is_set_at held.now place }
{
    match held.get(place) {
        Some(held) => is_set(held),
        None => false,
    }
}

fn is_set(held: &Held) -> bool
    ensures { result ≡ is_set held.now }
{
    match held {
        Held::Set(_) => true,
        Held::Nothing | Held::Item(_) => false,
    }
}

/// What statements give, sorted by the ranks of the sets.
pub fn ranked<'s, 'k, 'a>(
    mut givens: Vec<Given<'s, 'k, 'a>>,
    ranks: &[usize],
) -> Vec<Given<'s, 'k, 'a>>
    ensures sorted { IsNonDecreasingBy (λ x. get_or ranks.now x.set 0) result.items }
    ensures same { IsPermutation givens.entry.items result.items }
{
    givens.sort_unstable_by_key(|given| rank_at(ranks, given.set));
    givens
}

/// The rank of a set.
fn rank_at(ranks: &[usize], set: usize) -> usize
    ensures { result ≡ get_or ranks.now set 0 }
{
    match ranks.get(set) {
        Some(rank) => *rank,
        None => 0,
    }
}
