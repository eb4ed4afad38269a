//! A set of names, searched by halving.

ghost use Rattle.std.specs.Prelude.{◌≡◌, ◌||◌, [], IfOk, List, OnOk, not, ℕ};
ghost use Rattle.cil_syntax.specs.Spelling.{is_one_of, same_bytes};

use cil_base::NoMemory;
use std::alloc::Global;
use std::collections::BTreeSet;
use std::marker::Model;

/// Names, each once. Contracts see them as their list, in byte order.
#[derive(Drop)]
pub(crate) struct NameSet<'a> {
    names: BTreeSet<&'a [u8]>,
}

impl<'a> Model for NameSet<'a> {
    ghost use Rattle.std.specs.Prelude.{List, map, ℕ};

    ghost Value = { List (List ℕ) };

    ghost view = { λ a. map (λ k. k.now) a.names.keys };
}

impl<'a> NameSet<'a> {
    /// No names.
    pub(crate) fn new(alloc: Global) -> NameSet<'a>
        ensures { result ≡ [] }
    {
        NameSet {
            names: BTreeSet::new(alloc),
        }
    }

    /// Adds a name, and answers whether it was not there. It costs a search.
    pub(crate) fn add(&mut self, name: &'a [u8]) -> Result<bool, NoMemory>
        ensures new { IfOk result (λ new. new ≡ not (is_one_of self.old name.now)) }
        ensures names { OnOk result ((word : List ℕ) → is_one_of self.new word ≡ (same_bytes word name.now || is_one_of self.old word)) }
    {
        Ok(self.names.insert(name)?)
    }

    /// Whether a name is there.
    pub(crate) fn has(&self, name: &'a [u8]) -> bool
        ensures { result ≡ is_one_of self.now name.now }
    {
        self.names.contains(&name)
    }
}
