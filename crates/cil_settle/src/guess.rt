//! A guess of the strong components of a graph, by one depth-first search (Tarjan). Nothing is proved of it but that it ends.

use crate::edge::Edge;
use crate::plain::flag_at;
use crate::reach::no_flags;
use cil_base::NoMemory;
use std::alloc::Global;

/// For each node the root of its part, and a rank.
#[derive(Drop)]
pub struct Guess {
    /// One node of each part, for all nodes of it.
    pub roots: Vec<usize>,
    /// A rank for each part, which falls along edges to other parts.
    pub ranks: Vec<usize>,
}

/// A node whose edges are gone through, and the place of the next of them.
#[derive(Clone, Copy)]
struct Step {
    node: usize,
    next: usize,
}

/// What the search has seen.
#[derive(Drop)]
struct Search {
    /// For each node the order in which it was met, counted from 1; 0 for those that were not.
    met: Vec<usize>,
    /// For each node the earliest that it is known to lead to.
    low: Vec<usize>,
    /// The nodes whose part is not known yet, and a flag for each.
    waiting: Vec<usize>,
    waits: Vec<bool>,
    path: Vec<Step>,
    count: usize,
    parts: usize,
    guess: Guess,
}

/// The guess. The edges are sorted by the nodes that they leave. It costs a step for each edge, and for each node a search by halving.
/// Error: out of memory.
pub fn guessed(alloc: Global, nodes: usize, edges: &[Edge]) -> Result<Guess, NoMemory> {
    let mut search = Search {
        met: zeros(alloc, nodes)?,
        low: zeros(alloc, nodes)?,
        waiting: Vec::new(alloc),
        waits: no_flags(alloc, nodes)?,
        path: Vec::new(alloc),
        count: 0,
        parts: 0,
        guess: Guess {
            roots: zeros(alloc, nodes)?,
            ranks: zeros(alloc, nodes)?,
        },
    };
    for node in 0..nodes {
        search.from(edges, node)?;
    }
    let Search { guess, .. } = search;
    Ok(guess)
}

fn zeros(alloc: Global, nodes: usize) -> Result<Vec<usize>, NoMemory> {
    let mut numbers = Vec::with_capacity(alloc, nodes)?;
    for node in 0..nodes {
        let _node = node;
        numbers.push(0)?;
    }
    Ok(numbers)
}

fn at(numbers: &[usize], place: usize) -> usize {
    match numbers.get(place) {
        Some(number) => *number,
        None => 0,
    }
}

fn put(numbers: &mut [usize], place: usize, number: usize) {
    if place < numbers.len() {
        numbers[place] = number;
    }
}

fn mark(flags: &mut [bool], place: usize, flag: bool) {
    if place < flags.len() {
        flags[place] = flag;
    }
}

impl Search {
    /// Goes through all that a node leads to, if it was not met yet.
    fn from(&mut self, edges: &[Edge], node: usize) -> Result<(), NoMemory> {
        if at(self.met.as_slice(), node) != 0 {
            return Ok(());
        }
        self.meet(edges, node)?;
        for _step in 0..u64::MAX {
            if !self.step(edges)? {
                break;
            }
        }
        Ok(())
    }

    fn meet(&mut self, edges: &[Edge], node: usize) -> Result<(), NoMemory> {
        self.count = self.count.wrapping_add(1);
        put(&mut self.met, node, self.count);
        put(&mut self.low, node, self.count);
        self.waiting.push(node)?;
        mark(&mut self.waits, node, true);
        let next = edges.partition_point(|edge| edge.from < node);
        self.path.push(Step { node, next })?;
        Ok(())
    }

    /// One edge, or the end of a node; false where nothing is left.
    fn step(&mut self, edges: &[Edge]) -> Result<bool, NoMemory> {
        let Some(step) = self.path.pop() else {
            return Ok(false);
        };
        let Some(to) = leads_to(edges, step) else {
            self.close(step.node);
            return Ok(true);
        };
        self.path.push(Step {
            node: step.node,
            next: step.next.wrapping_add(1),
        })?;
        let met = at(self.met.as_slice(), to);
        if met == 0 {
            self.meet(edges, to)?;
            return Ok(true);
        }
        if flag_at(self.waits.as_slice(), to) {
            self.lower(step.node, met);
        }
        Ok(true)
    }

    fn lower(&mut self, node: usize, to: usize) {
        let low = at(self.low.as_slice(), node).min(to);
        put(&mut self.low, node, low);
    }

    /// A node whose edges are all gone through: it is the root of its part, or leads to an earlier one.
    fn close(&mut self, node: usize) {
        let low = at(self.low.as_slice(), node);
        if low == at(self.met.as_slice(), node) {
            self.part(node);
        }
        if let Some(step) = self.path.last() {
            let before = step.node;
            self.lower(before, low);
        }
    }

    fn part(&mut self, root: usize) {
        for _step in 0..u64::MAX {
            let Some(node) = self.waiting.pop() else {
                break;
            };
            mark(&mut self.waits, node, false);
            put(&mut self.guess.roots, node, root);
            put(&mut self.guess.ranks, node, self.parts);
            if node == root {
                break;
            }
        }
        self.parts = self.parts.wrapping_add(1);
    }
}

fn leads_to(edges: &[Edge], step: Step) -> Option<usize> {
    let edge = edges.get(step.next)?;
    if edge.from != step.node {
        return None;
    }
    Some(edge.to)
}
