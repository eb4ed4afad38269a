//! A guess at the greatest set: the walk of cil_settle over optionals, entries and words. It costs n log n steps, where n counts
//! words, what they could name, and the optionals round declarations. Nothing is promised of a guess; `checking.rt` tries it.

ghost use Rattle.std.specs.Prelude.{All, IsTrue};
ghost use Rattle.cil_macros.specs.Items.{items_in, namespaces_in};
ghost use Rattle.cil_names.specs.Entries.{AreEntries};
ghost use Rattle.cil_names.specs.Unresolved.{ArePermissions};
ghost use Rattle.cil_settle.specs.Settled.{leads_within};

use crate::chosen::Chosen;
use crate::graph::{Graph, WordNode};
use crate::parts::Parts;
use crate::reason::Reason;
use crate::removal::optionals_of;
use cil_base::{NoMemory, short};
use cil_macros::Instances;
use cil_names::{Entry, Names, OptSet, is_set};
use cil_settle::{Edge, Settled, settle, sort_edges};
use cil_syntax::Bytes;
use cil_words::asks_of;
use std::alloc::Global;

/// A guess at the greatest set of optionals. It is public for tests, which ask whether it is right: where it was not, the choice
/// would go the plain way, and only take longer. Error: out of memory.
pub fn guess<'r, 'a>(
    alloc: Global,
    instances: &'r Instances<'_, '_, 'a>,
    names: &'r Names<'a>,
    permissions: &'r [Vec<Bytes>],
) -> Result<Walk, NoMemory>
    requires entries { AreEntries (namespaces_in instances.now) (items_in instances.now) names.now }
    requires permissions { ArePermissions (namespaces_in instances.now) names.now (items_in instances.now) permissions.now }
{
    let asks = asks_of(alloc, instances, names, permissions)?;
    let parts = Parts {
        instances,
        asks: &asks,
    };
    let walk = guess_by(alloc, &parts, names.entries())?;
    Ok(walk)
}

/// A guess by the parts of all statements.
pub(crate) fn guess_by(alloc: Global, parts: &Parts, entries: &[Entry]) -> Result<Walk, NoMemory> {
    let mut graph = Graph {
        edges: Vec::new(alloc),
        need: Vec::new(alloc),
        words: Vec::new(alloc),
    };
    graph.add_statements(parts)?;
    graph.add_entries(parts.len(), entries)?;
    graph.add_all_words(parts, entries)?;
    let Graph { edges, need, words } = graph;
    let Settled { order, lookups } = settled(alloc, edges, need)?;
    let first_word = parts.len().saturating_add(entries.len());
    let chosen = chosen_from(alloc, parts, words.as_slice(), first_word, order.as_slice())?;
    Ok(Walk { chosen, lookups })
}

/// A choice of optionals, and the look-ups of the walk that made it.
#[derive(Drop)]
pub struct Walk {
    /// The choice.
    pub chosen: Chosen,
    /// How many look-ups it took: visits of an entry from a declaring statement that goes out, and of a word from an entry that
    /// goes out.
    pub lookups: usize,
}

/// The nodes that go out, in order, and the look-ups that this took.
fn settled(alloc: Global, mut edges: Vec<Edge>, need: Vec<usize>) -> Result<Settled, NoMemory> {
    sort_edges(edges.as_mut_slice());
    if !lead_within(edges.as_slice(), need.len()) {
        return Ok(Settled {
            order: Vec::new(alloc),
            lookups: 0,
        });
    }
    settle(alloc, edges.as_slice(), need)
}

/// Whether all edges lead to nodes, of which there are so many.
fn lead_within(edges: &[Edge], count: usize) -> bool
    ensures { IsTrue result → All (leads_within count) edges.now }
{
    edges.iter().all(|edge| edge.to < count)
}

/// The optionals that are in none of the nodes that go out, and for each other one a reason that holds when its turn comes.
fn chosen_from(
    alloc: Global,
    parts: &Parts,
    words: &[WordNode],
    first_word: usize,
    order: &[usize],
) -> Result<Chosen, NoMemory> {
    let mut removal = Removal {
        left: optionals_of(alloc, parts)?,
        causes: vec![in alloc; None; parts.len()]?,
        reasons: Vec::new(alloc),
    };
    for node in order {
        removal.put_out(parts, words, first_word, *node)?;
    }
    let Removal {
        left,
        causes: _,
        reasons,
    } = removal;
    Ok(Chosen {
        enabled: OptSet::of(left),
        reasons,
    })
}

/// What is known on the way through the nodes that go out.
#[derive(Drop)]
struct Removal {
    /// For each statement whether it is an optional that is left.
    left: Vec<bool>,
    /// For each statement, if it is an optional, the first of its words that is out.
    causes: Vec<Option<usize>>,
    reasons: Vec<Reason>,
}

impl Removal {
    fn put_out(
        &mut self,
        parts: &Parts,
        words: &[WordNode],
        first_word: usize,
        node: usize,
    ) -> Result<(), NoMemory> {
        if node >= first_word {
            self.note_word(words, node - first_word);
            return Ok(());
        }
        if !is_set(self.left.as_slice(), node) {
            return Ok(());
        }
        let Some(reason) = self.reason(parts, words, node)? else {
            return Ok(());
        };
        self.reasons.push(reason)?;
        if node < self.left.len() {
            self.left[node] = false;
        }
        Ok(())
    }

    /// Notes that a word is out.
    fn note_word(&mut self, words: &[WordNode], number: usize) {
        let Some(word) = words.get(number) else {
            return;
        };
        if word.optional < self.causes.len() && self.causes[word.optional].is_none() {
            self.causes[word.optional] = Some(number);
        }
    }

    /// Why an optional goes out now.
    fn reason(
        &self,
        parts: &Parts,
        words: &[WordNode],
        optional: usize,
    ) -> Result<Option<Reason>, NoMemory> {
        if self.is_out(parts.inside(optional)) {
            return Ok(Some(Reason::ParentOut {
                optional: short(optional)?,
            }));
        }
        missing(words, self.cause(optional))
    }

    fn is_out(&self, parent: Option<usize>) -> bool {
        match parent {
            Some(optional) => !is_set(self.left.as_slice(), optional),
            None => false,
        }
    }

    fn cause(&self, optional: usize) -> Option<usize> {
        *self.causes.get(optional)?
    }
}

/// The reason that a word gives.
fn missing(words: &[WordNode], number: Option<usize>) -> Result<Option<Reason>, NoMemory> {
    let Some(at) = number else {
        return Ok(None);
    };
    let Some(word) = words.get(at) else {
        return Ok(None);
    };
    Ok(Some(Reason::Missing {
        optional: short(word.optional)?,
        instance: short(word.instance)?,
        word: short(word.word)?,
    }))
}
