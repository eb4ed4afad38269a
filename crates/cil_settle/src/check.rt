//! A guess, checked: each edge stays in its part or falls, and each part is reached from its root and reaches it.

ghost use Rattle.std.specs.Prelude.{◌≡◌, ◌<◌, ◌≤◌, ◌↔◌, ◌⊎◌, All, IfOk, IfSome, IsPermutation, IsTrue, List, get_or, length, false, true, ℕ, Contains};
ghost use Rattle.std.specs.List.Sorted.{IsNonDecreasingBy};
ghost use Rattle.cil_settle.specs.Cycles.{AreOnCycles, Fall, HasNoCycle, IsWithin};
ghost use Rattle.cil_settle.specs.Checked.{AreCovered, AreInner, AreLeaving, AreRoots, AreSteady, AreTurned, IsInner, IsWhole};

use crate::edge::Edge;
use crate::guess::Guess;
use crate::plain::flag_at;
use crate::reach::{no_flags, reached};
use cil_base::NoMemory;
use std::alloc::Global;

/// The nodes on cycles, if the guess is right: a node is on one if an edge within its part leaves it. None if the guess was refused,
/// and then nothing is known. Error: out of memory.
pub fn checked(
    alloc: Global,
    nodes: usize,
    edges: &[Edge],
    guess: &Guess,
) -> Result<Option<Vec<bool>>, NoMemory>
    requires { All (IsWithin nodes) edges.now }
    ensures on { IfOk result (λ r. IfSome r (λ on. AreOnCycles edges.now nodes on.items)) }
    ensures ranks { IfOk result (λ r. IfSome r (λ on. HasNoCycle edges.now → Fall edges.now guess.now.ranks.items)) }
{
    if !are_steady(edges, guess) {
        return Ok(None);
    }
    let inner = inner_edges(alloc, nodes, edges, guess)?;
    if !is_whole(alloc, nodes, inner.as_slice(), guess)? {
        return Ok(None);
    }
    let on = leaving(alloc, nodes, inner.as_slice())?;
    Ok(Some(on))
}

/// Whether each edge stays in a part, or falls.
fn are_steady(edges: &[Edge], guess: &Guess) -> bool
    ensures { result ≡ true → AreSteady edges.now guess.now.roots.items guess.now.ranks.items }
{
    for edge in edges {
        if !is_steady(edge, guess) {
            return false;
        }
    }
    true
}

fn is_steady(edge: &Edge, guess: &Guess) -> bool
    ensures { IsTrue result ↔ (IsInner guess.now.roots.items guess.now.ranks.items edge.now ⊎ (get_or guess.now.ranks.items edge.now.to 0 < get_or guess.now.ranks.items edge.now.from 0)) }
{
    if is_inner(edge, guess) {
        return true;
    }
    let ranks = guess.ranks.as_slice();
    number_at(ranks, edge.to) < number_at(ranks, edge.from)
}

/// Whether both ends of an edge are in one part, and have one rank.
fn is_inner(edge: &Edge, guess: &Guess) -> bool
    ensures { IsTrue result ↔ IsInner guess.now.roots.items guess.now.ranks.items edge.now }
{
    let roots = guess.roots.as_slice();
    let ranks = guess.ranks.as_slice();
    if number_at(roots, edge.from) != number_at(roots, edge.to) {
        return false;
    }
    number_at(ranks, edge.from) == number_at(ranks, edge.to)
}

/// The number at a place; 0 where there is none.
fn number_at(numbers: &[usize], place: usize) -> usize
    ensures { result ≡ get_or numbers.now place 0 }
{
    match numbers.get(place) {
        Some(number) => *number,
        None => 0,
    }
}

/// The edges that stay in a part, sorted by the nodes that they leave.
fn inner_edges(
    alloc: Global,
    nodes: usize,
    edges: &[Edge],
    guess: &Guess,
) -> Result<Vec<Edge>, NoMemory>
    requires { All (IsWithin nodes) edges.now }
    ensures inner { IfOk result (λ inner. AreInner edges.now guess.now.roots.items guess.now.ranks.items inner.items) }
    ensures sorted { IfOk result (λ inner. IsNonDecreasingBy (λ e. e.from) inner.items) }
    ensures within { IfOk result (λ inner. All (IsWithin nodes) inner.items) }
{
    let inner = unsorted(alloc, edges, guess)?;
    Ok(sorted(inner))
}

/// The same, unsorted.
fn unsorted(alloc: Global, edges: &[Edge], guess: &Guess) -> Result<Vec<Edge>, NoMemory>
    ensures { IfOk result (λ inner. AreInner edges.now guess.now.roots.items guess.now.ranks.items inner.items) }
{
    let mut inner = Vec::new(alloc);
    for edge in edges {
        if is_inner(edge, guess) {
            inner.push(*edge)?;
        }
    }
    Ok(inner)
}

/// Whether each part is reached from its root, and reaches it.
fn is_whole(alloc: Global, nodes: usize, inner: &[Edge], guess: &Guess) -> Result<bool, NoMemory>
    requires sorted { IsNonDecreasingBy (λ e. e.from) inner.now }
    requires within { All (IsWithin nodes) inner.now }
    ensures { IfOk result (λ r. r ≡ true → IsWhole inner.now nodes guess.now.roots.items) }
{
    let roots = guess.roots.as_slice();
    let need = need_of(alloc, nodes, roots)?;
    let forward = reached(alloc, inner, need)?;
    let turned = turned_edges(alloc, nodes, inner)?;
    let again = need_of(alloc, nodes, roots)?;
    let backward = reached(alloc, turned.as_slice(), again)?;
    Ok(are_covered(inner, forward.as_slice(), backward.as_slice()))
}

/// 0 for each node that is its own root, and 1 for each other.
fn need_of(alloc: Global, nodes: usize, roots: &[usize]) -> Result<Vec<usize>, NoMemory>
    ensures { IfOk result (λ need. AreRoots nodes roots.now need.items) }
{
    let mut need = Vec::with_capacity(alloc, nodes)?;
    for node in 0..nodes {
        need.push(need_at(roots, node))?;
    }
    Ok(need)
}

fn need_at(roots: &[usize], node: usize) -> usize
    ensures few { result ≤ 1 }
    ensures root { result ≡ 0 → get_or roots.now node 0 ≡ node }
{
    if number_at(roots, node) == node {
        return 0;
    }
    1
}

/// The edges turned round, sorted by the nodes that they leave.
fn turned_edges(alloc: Global, nodes: usize, edges: &[Edge]) -> Result<Vec<Edge>, NoMemory>
    requires { All (IsWithin nodes) edges.now }
    ensures turned { IfOk result (λ turned. AreTurned edges.now turned.items) }
    ensures sorted { IfOk result (λ turned. IsNonDecreasingBy (λ e. e.from) turned.items) }
    ensures within { IfOk result (λ turned. All (IsWithin nodes) turned.items) }
{
    let turned = turned_round(alloc, edges)?;
    Ok(sorted(turned))
}

/// The edges, sorted by the nodes that they leave.
fn sorted(mut edges: Vec<Edge>) -> Vec<Edge>
    ensures sorted { IsNonDecreasingBy (λ e. e.from) result.items }
    ensures same { IsPermutation edges.items result.items }
{
    edges.sort_unstable_by_key(|edge| edge.from);
    edges
}

fn turned_round(alloc: Global, edges: &[Edge]) -> Result<Vec<Edge>, NoMemory>
    ensures { IfOk result (λ turned. AreTurned edges.now turned.items) }
{
    let mut turned = Vec::with_capacity(alloc, edges.len())?;
    for edge in edges {
        turned.push(Edge {
            from: edge.to,
            to: edge.from,
            counted: edge.counted,
        })?;
    }
    Ok(turned)
}

/// Whether each edge begins where its part is reached from the root, and ends where the root is reached.
fn are_covered(inner: &[Edge], forward: &[bool], backward: &[bool]) -> bool
    ensures { result ≡ true → AreCovered inner.now forward.now backward.now }
{
    for edge in inner {
        if !flag_at(forward, edge.from) {
            return false;
        }
        if !flag_at(backward, edge.to) {
            return false;
        }
    }
    true
}

/// The nodes that some edge leaves.
fn leaving(alloc: Global, nodes: usize, edges: &[Edge]) -> Result<Vec<bool>, NoMemory>
    requires { All (IsWithin nodes) edges.now }
    ensures { IfOk result (λ flags. AreLeaving edges.now nodes flags.items) }
{
    let mut flags = no_flags(alloc, nodes)?;
    for edge in edges {
        flags[edge.from] = true;
    }
    Ok(flags)
}
