//! What the choice of optionals reads of statements: of each whether it is an optional, the optional round it, and what its words
//! could name.

ghost use Rattle.std.specs.Prelude.{◌≡◌, ◌↔◌, ◌<◌, [], IsTrue, get_or, length};
ghost use Rattle.cil_blocks.specs.Contents.{is_optional as is_optional_keyword};
ghost use Rattle.cil_macros.specs.Items.{item_at, items_in, namespaces_in};
ghost use Rattle.cil_names.specs.Entries.{AreEntries};
ghost use Rattle.cil_optionals.specs.Parts.{ArePartsOf, asked_at, inside_at, is_optional_part, parts_in};
ghost use Rattle.cil_words.specs.Table.{AreAsks, could_in};

use cil_blocks::names::is_optional;
use cil_macros::Instances;
use cil_names::Names;
use cil_words::Asks;

/// All instances, and the table of what they ask for. Contracts see a part for each instance.
#[derive(Clone, Copy)]
pub struct Parts<'r, 's, 'p, 'a> {
    pub instances: &'r Instances<'s, 'p, 'a>,
    pub asks: &'r Asks,
}

impl Parts<'_, '_, '_, '_> {
    /// How many statements there are.
    pub fn len(&self) -> usize
        ensures { result ≡ length (parts_in self.now) }
    {
        self.instances.len()
    }

    /// Whether there is a statement of this number.
    fn is_there(&self, at: usize) -> bool
        ensures { IsTrue result ↔ (at < length (items_in self.now.instances.now)) }
    {
        at < self.instances.len()
    }

    /// Whether the statement of this number is an optional.
    pub fn is_optional(&self, at: usize) -> bool
        ensures { result ≡ is_optional_part (parts_in self.now) at }
    {
        if !self.is_there(at) {
            return false;
        }
        is_optional_there(self.instances, at)
    }

    /// The number of the innermost optional round the statement of this number.
    pub fn inside(&self, at: usize) -> Option<usize>
        ensures { result ≡ inside_at (parts_in self.now) at }
    {
        if !self.is_there(at) {
            return None;
        }
        self.instances.innermost(at)
    }

    /// How many words the statement of this number has.
    pub fn count(&self, at: usize) -> usize
        ensures { result ≡ length (asked_at (parts_in self.now) at) }
    {
        if !self.is_there(at) {
            return 0;
        }
        self.asks.count(at)
    }

    /// The entries that a word of a statement could name, whatever is enabled.
    pub fn word(&self, at: usize, number: usize) -> &[u32]
        ensures { result.now ≡ get_or (asked_at (parts_in self.now) at) number [] }
    {
        if !self.is_there(at) {
            return &[];
        }
        self.asks.word(at, number)
    }
}

/// The parts of all instances, of which this is the table.
pub fn parts_of<'r, 's, 'p, 'a>(
    instances: &'r Instances<'s, 'p, 'a>,
    names: &Names<'a>,
    asks: &'r Asks,
) -> Parts<'r, 's, 'p, 'a>
    requires entries { AreEntries (namespaces_in instances.now) (items_in instances.now) names.now }
    requires asks { AreAsks (namespaces_in instances.now) names.now (items_in instances.now) (could_in asks.now) }
    ensures { ArePartsOf (namespaces_in instances.now) names.now (items_in instances.now) (parts_in result) }
{
    instances.are_nested();
    instances.namespaces();
    Parts { instances, asks }
}

/// Whether the statement at a place is an optional.
fn is_optional_there(instances: &Instances, at: usize) -> bool
    requires { at < length (items_in instances.now) }
    ensures { result ≡ is_optional_keyword (item_at instances.now at).keyword }
{
    is_optional(instances.statement_there(at).keyword)
}
