//! What stands in each namespace, as the layers above see it.

ghost use Rattle.std.specs.Prelude.{◌≡◌};

use crate::entry::Entry;
use crate::namespaces::Namespaces;
use crate::placing::Located;
use crate::scopes::ScopeList;
use cil_base::NoMemory;
use cil_syntax::Statement;
use std::alloc::Global;
use std::marker::Model;

/// All that stands in a program in which nothing is wrong with the blocks. Contracts see the statements of the program and
/// the list of what stands, each a statement by its number and the one that opened it.
#[derive(Drop)]
pub struct Spaces<'p, 'a> {
    pub(crate) statements: &'p [Statement<'a>],
    pub(crate) entries: Vec<Entry>,
    pub(crate) located: Located<'a>,
}

impl<'p, 'a> Model for Spaces<'p, 'a> {
    ghost use Rattle.cil_syntax.specs.contracts.term.Term as term;
    ghost use Rattle.cil_blocks.specs.Places.{AreStandings, Standings, all_numbered};
    ghost use Rattle.std.specs.Coded.{codes};
    ghost use denote.Signature.{static_lft};

    ghost Value = { Standings };

    ghost coded = { Prim.hlevel (codes, (term.the_row static_lft).coded) };

    ghost view = { λ s. (s.statements.now, s.entries.items, s.located.namespaces, all_numbered s.located.namespaces s.located.places) };

    ghost invariant = { λ s. AreStandings (s.statements.now, s.entries.items, s.located.namespaces, all_numbered s.located.namespaces s.located.places) };
}

impl<'p, 'a> Spaces<'p, 'a> {
    ghost use Rattle.std.specs.Prelude.{◌≡◌, IsTrue, MatchOption, None, OnOk, Some, slice_get};
    ghost use Rattle.cil_blocks.specs.Numbers.{with_numbers};
    ghost use Rattle.cil_blocks.specs.Places.{AreStandings, IsInSpace, Numbered, entries_in, places_in, spaces_in, statements_in};

    /// The statements of the program, in order.
    pub fn statements(&self) -> &'p [Statement<'a>]
        ensures { result.now ≡ statements_in self.now }
    {
        self.statements
    }

    /// All that stands: by the number of statements through which it came, then by these.
    pub fn entries(&self) -> &[Entry]
        ensures same { result.now ≡ entries_in self.now }
        ensures standings { AreStandings self.now }
    {
        self.entries.as_slice()
    }

    /// The namespaces that blocks make where they are written, and those in which something stands.
    pub fn namespaces(&self) -> &Namespaces<'a>
        ensures { result.now ≡ spaces_in self.now }
    {
        &self.located.namespaces
    }

    /// The number of the namespace in which the entry of a rank stands.
    pub fn space(&self, rank: usize) -> Option<usize>
        ensures { MatchOption result (slice_get (places_in self.now) rank ≡ None) (IsInSpace (places_in self.now) rank) }
    {
        self.located.places.space(rank)
    }

    /// Whether the entries of two ranks stand in one place, and so have one scope. It costs one step, and is not told of places
    /// that were opened apart.
    pub fn have_one_place(&self, rank: usize, other: usize) -> bool
        ensures { IsTrue result → slice_get (places_in self.now) rank ≡ slice_get (places_in self.now) other }
    {
        self.located.places.have_one(rank, other)
    }

    /// Adds the scope of the entry of a rank to another one, but for the global namespace. It costs a step for each block and
    /// each blockinherit through which the entry came, and a hash for each namespace.
    pub fn add_scope(
        &self,
        alloc: Global,
        rank: usize,
        scope: &mut ScopeList,
    ) -> Result<(), NoMemory>
        ensures { OnOk result ((p : Numbered) → slice_get (places_in self.now) rank ≡ Some p → scope.new ≡ with_numbers scope.old p.1) }
    {
        let located = &self.located;
        located
            .places
            .add_scope(alloc, &located.namespaces, rank, scope)?;
        Ok(())
    }

    /// Fills a list with the scope of the entry of a rank: the namespaces in which its words are looked up.
    pub fn scope_into(
        &self,
        alloc: Global,
        rank: usize,
        scope: &mut ScopeList,
    ) -> Result<(), NoMemory>
        ensures { OnOk result ((p : Numbered) → slice_get (places_in self.now) rank ≡ Some p → scope.new ≡ p.1) }
    {
        scope.clear();
        let located = &self.located;
        located
            .places
            .add_scope(alloc, &located.namespaces, rank, scope)?;
        scope.close()?;
        Ok(())
    }
}
