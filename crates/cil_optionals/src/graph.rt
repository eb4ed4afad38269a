//! The graph of a guess: optionals, entries and words, and what goes out with what.

use crate::parts::Parts;
use cil_base::NoMemory;
use cil_names::Entry;
use cil_settle::Edge;

/// Optionals, entries and words as nodes: a node for each statement, then for each entry, then for words in optionals. An optional
/// goes out with its parent or with a word, an entry with all statements that declare it, and a word with all entries that it
/// could name. Most words could name only entries that stay, whatever is left out. They have no node, so that the graph is small.
#[derive(Drop)]
pub struct Graph {
    /// The edges, by the numbers of nodes.
    pub edges: Vec<Edge>,
    /// For each node how many it has to lose before it goes out.
    pub need: Vec<usize>,
    /// The words that have a node.
    pub words: Vec<WordNode>,
}

/// A word of a statement in an optional.
#[derive(Clone, Copy)]
pub struct WordNode {
    /// The innermost optional round the statement.
    pub optional: usize,
    /// The number of the statement.
    pub instance: usize,
    /// Which of its words it is, from 0 on.
    pub word: usize,
}

impl Graph {
    fn edge(&mut self, from: usize, to: usize, counted: bool) -> Result<(), NoMemory> {
        self.edges.push(Edge { from, to, counted })?;
        Ok(())
    }

    /// A node for each statement; an optional in another one goes out with it. Error: out of memory.
    pub fn add_statements(&mut self, parts: &Parts) -> Result<(), NoMemory> {
        for at in 0..parts.len() {
            self.need.push(1)?;
            if let Some(parent) = parent_of(parts, at) {
                self.edge(parent, at, false)?;
            }
        }
        Ok(())
    }

    /// A node for each entry, from a number on. Error: out of memory.
    pub fn add_entries(&mut self, first: usize, entries: &[Entry]) -> Result<(), NoMemory> {
        for number in 0..entries.len() {
            self.add_entry(first.saturating_add(number), &entries[number])?;
        }
        Ok(())
    }

    fn add_entry(&mut self, node: usize, entry: &Entry) -> Result<(), NoMemory> {
        self.need.push(declarations_to_lose(entry))?;
        for round in entry.rounds.as_slice() {
            self.add_round(node, round.as_slice())?;
        }
        Ok(())
    }

    fn add_round(&mut self, node: usize, round: &[usize]) -> Result<(), NoMemory> {
        if let Some(innermost) = round.first() {
            self.edge(*innermost, node, true)?;
        }
        Ok(())
    }

    /// A node for each word in an optional that may go out. Error: out of memory.
    pub fn add_all_words(&mut self, parts: &Parts, entries: &[Entry]) -> Result<(), NoMemory> {
        for instance in 0..parts.len() {
            if let Some(optional) = parts.inside(instance) {
                self.add_words(optional, instance, parts, entries)?;
            }
        }
        Ok(())
    }

    fn add_words(
        &mut self,
        optional: usize,
        instance: usize,
        parts: &Parts,
        entries: &[Entry],
    ) -> Result<(), NoMemory> {
        for word in 0..parts.count(instance) {
            let candidates = parts.word(instance, word);
            if !all_stay(entries, candidates) {
                let own = WordNode {
                    optional,
                    instance,
                    word,
                };
                self.add_word(own, candidates, parts.len(), entries)?;
            }
        }
        Ok(())
    }

    /// Adds a word that needs a node. It loses an entry less than it could name for each that stays, so it stays with that entry.
    fn add_word(
        &mut self,
        word: WordNode,
        candidates: &[u32],
        first_entry: usize,
        entries: &[Entry],
    ) -> Result<(), NoMemory> {
        let node = self.need.len();
        self.need.push(candidates.len())?;
        self.words.push(word)?;
        self.edge(node, word.optional, false)?;
        for entry in candidates {
            let number = *entry as usize;
            if !stays(entries, number) {
                self.edge(first_entry.saturating_add(number), node, true)?;
            }
        }
        Ok(())
    }
}

/// Whether a word could name something, and only entries that stay: then it stays too, and no look-up of it is counted.
fn all_stay(entries: &[Entry], candidates: &[u32]) -> bool {
    !candidates.is_empty()
        && candidates
            .iter()
            .all(|entry| stays(entries, *entry as usize))
}

/// Whether the entry of this number is declared whatever is left out.
fn stays(entries: &[Entry], number: usize) -> bool {
    match entries.get(number) {
        Some(entry) => entry.always,
        None => false,
    }
}

/// The optional round an optional.
fn parent_of(parts: &Parts, at: usize) -> Option<usize> {
    if parts.is_optional(at) {
        parts.inside(at)
    } else {
        None
    }
}

/// How many declaring statements have to go out before an entry does: more than there are, if one is in no optional.
fn declarations_to_lose(entry: &Entry) -> usize {
    if entry.always {
        usize::MAX
    } else {
        entry.rounds.len()
    }
}
