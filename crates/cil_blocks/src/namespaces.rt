//! Namespaces by their numbers. A table has each of them once; a look-up by the one round it and a name costs one hash.

ghost use Rattle.std.specs.Prelude.{◌≡◌};

use cil_base::NoMemory;
use cil_syntax::Excerpt;
use indexmap::IndexSet;
use std::alloc::Global;
use std::marker::Model;

/// A namespace that is not the global one. Its number is its place in the list of all, counted from 1; the global
/// namespace has the number 0.
#[derive(Debug, Drop)]
pub struct Space<'a> {
    /// The number of the namespace in which it is.
    pub outer: usize,
    /// Its own name.
    pub name: Excerpt<'a>,
}

/// Namespaces, each once and after the one round it. Contracts see them as a list.
#[derive(Drop)]
pub struct Namespaces<'a> {
    keys: IndexSet<(usize, &'a [u8])>,
}

impl<'a> Model for Namespaces<'a> {
    ghost use Rattle.std.specs.Prelude.{List};
    ghost use Rattle.cil_blocks.specs.declared.namespaces.Space.{Space};
    ghost use Rattle.cil_blocks.specs.Namespaces.{AreNamespaces, spaces_of};

    ghost Value = { List Space };

    ghost view = { λ a. spaces_of a.keys.keys };

    ghost invariant = { λ a. AreNamespaces (spaces_of a.keys.keys) };
}

impl<'a> Namespaces<'a> {
    ghost use Rattle.std.specs.Prelude.{◌≡◌, ◌≤◌, ◌<◌, ◌+◌, ◌^◌, ◌∷◌, ℕ, IfOk, IfSome, MatchOption, OnErr, OnOk, [], length, map, slice_get};
    ghost use Rattle.std.specs.Option.{option_copied};
    ghost use Rattle.cil_syntax.specs.Scopes.{chain};
    ghost use Rattle.cil_blocks.specs.declared.namespaces.Space.{Space};
    ghost use Rattle.cil_blocks.specs.Namespaces.{AreNamespaces, HasNoNumber, IsGrown, IsNumber, inner_at, space_at};

    /// No namespace but the global one.
    pub fn global(alloc: Global) -> Namespaces<'a>
        ensures { result ≡ [] }
    {
        Namespaces {
            keys: IndexSet::new(alloc),
        }
    }

    /// Each of them is there once.
    pub fn are_namespaces(&self)
        ensures { AreNamespaces self.now }
    {
        let _ = &self.keys;
    }

    /// How many there are, without the global one. A number is at most that.
    pub fn len(&self) -> usize
        ensures count { result ≡ length self.now }
        ensures small { result < 2 ^ 63 }
    {
        self.keys.len()
    }

    /// The namespace of a number; none for that of the global one, and where there is no such number.
    pub fn get(&self, number: usize) -> Option<Space<'a>>
        ensures space { result ≡ inner_at self.now number }
        ensures once { AreNamespaces self.now }
    {
        let keys = self.keys.as_slice();
        let place = number.checked_sub(1)?;
        let (outer, name) = *keys.get(place)?;
        Some(Space {
            outer,
            name: Excerpt::of(name),
        })
    }

    /// The number of the namespace of this name in another one.
    pub fn child(&self, outer: usize, name: &[u8]) -> Option<usize>
        requires { outer ≤ length self.now }
        ensures { MatchOption result (HasNoNumber self.now (name.now ∷ space_at self.now outer)) (IsNumber self.now (name.now ∷ space_at self.now outer)) }
    {
        let place = self.keys.get_index_of(&(outer, name))?;
        Some(self.number_at(place))
    }

    /// The number of the namespace of this name in another one, which is added if it is not there.
    pub fn number(&mut self, outer: usize, name: &'a [u8]) -> Result<usize, NoMemory>
        requires { outer ≤ length self.old }
        ensures grown { IsGrown self.old self.new }
        ensures once { AreNamespaces self.new }
        ensures numbered { IfOk result (IsNumber self.new (name.now ∷ space_at self.old outer)) }
    {
        let (place, _) = self.keys.insert_full((outer, name))?;
        Ok(self.number_at(place))
    }

    /// The number of the namespace at a place of the list.
    fn number_at(&self, place: usize) -> usize
        requires { place < length self.now }
        ensures { result ≡ place + 1 }
    {
        // The list is shorter than the largest number.
        place.min(self.len()) + 1
    }
}
