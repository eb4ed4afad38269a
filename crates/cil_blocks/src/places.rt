//! Where statements stand, by the numbers of namespaces. What one statement opens has one place, so a place is kept once for
//! each run of entries that were opened by the same one, and the places of a flat policy take no memory. A place is kept as the
//! step from the one before it, and its scope is computed when it is asked: a step for each place on the way, and a hash or two
//! for each namespace in it. `placing.rt` finds the places of all that stands.

ghost use Rattle.std.specs.Prelude.{◌≡◌, ◌<◌, ◌++◌, [], IfOk, List, MatchOption, OnOk};
ghost use Rattle.cil_blocks.specs.declared.namespaces.Space.{Space};
ghost use Rattle.cil_blocks.specs.Numbers.{with_numbers};
ghost use Rattle.cil_blocks.specs.Places.{Reached, reached_at, reached_by, reached_top};
ghost use Rattle.cil_blocks.specs.Placing.{AreBehind, numbers_left};

use crate::namespaces::Namespaces;
use crate::numbers::Numbers;
use crate::scopes::ScopeList;
use cil_base::NoMemory;
use indexmap::IndexSet;
use std::alloc::Global;
use std::marker::Model;

/// A place as it is kept: the step from another one.
#[derive(Debug, Drop)]
pub struct Place {
    /// The number of its namespace.
    pub space: usize,
    /// The place from which it is reached: 0 for the top of a module, or the place of that one among those kept, counted from 1.
    pub outer: usize,
    /// Of what is inherited the number of the namespace in which the inherited block is written; none of what is in a block.
    pub written: Option<usize>,
}

/// What a statement opens: in which namespace, and where the block is written that it inherits.
#[derive(Clone, Copy)]
pub struct Inside {
    /// The number of the namespace of what is opened.
    pub space: usize,
    /// Of what is inherited the number of the namespace in which the inherited block is written.
    pub written: Option<usize>,
}

/// The place of each of some statements. Contracts see how each is reached.
#[derive(Drop)]
pub struct Places {
    kept: Vec<Place>,
    which: Numbers,
}

impl Model for Places {
    ghost use Rattle.std.specs.Prelude.{List};
    ghost use Rattle.cil_blocks.specs.Places.{Reached, reached_of};
    ghost use Rattle.cil_blocks.specs.Placing.{AreChosen};

    ghost Value = { List Reached };

    ghost view = { λ a. reached_of a.kept.items a.which };

    ghost invariant = { λ a. AreChosen a.kept.items a.which };
}

impl Places {
    ghost use Rattle.std.specs.Prelude.{◌≡◌, ◌++◌, ◌∷◌, [], IfOk, IsTrue, MatchOption, None, OnOk, Some, slice_get};
    ghost use Rattle.cil_blocks.specs.Numbers.{with_numbers};
    ghost use Rattle.cil_blocks.specs.Places.{Reached, numbers_of, reached_through, reached_top};
    ghost use Rattle.cil_blocks.specs.Placing.{IsSpaceAt};

    /// No place of any statement.
    pub fn new(alloc: Global) -> Places
        ensures { result ≡ [] }
    {
        Places {
            kept: Vec::new(alloc),
            which: Numbers::new(alloc),
        }
    }

    /// The number of the namespace in which the statement of a rank stands.
    pub fn space(&self, rank: usize) -> Option<usize>
        ensures { MatchOption result (slice_get self.now rank ≡ None) (IsSpaceAt self.now rank) }
    {
        let which = self.which.get(rank)?;
        Some(space_of(self.kept.as_slice(), which))
    }

    /// Whether the statements of two ranks have one place. It is not told of places that were opened apart.
    pub fn have_one(&self, rank: usize, other: usize) -> bool
        ensures { IsTrue result → slice_get self.now rank ≡ slice_get self.now other }
    {
        self.which.get(rank) == self.which.get(other)
    }

    /// Adds the numbers in which the words of the statement of a rank are looked up, but for that of the global namespace.
    pub fn add_scope(
        &self,
        alloc: Global,
        namespaces: &Namespaces,
        rank: usize,
        scope: &mut ScopeList,
    ) -> Result<(), NoMemory>
        ensures { OnOk result ((r : Reached) → slice_get self.now rank ≡ Some r → scope.new ≡ with_numbers scope.old (numbers_of namespaces.now r)) }
    {
        let Some(which) = self.which.get(rank) else {
            return Ok(());
        };
        let mut left = add_blocks(alloc, self.kept.as_slice(), which, scope)?;
        add_chains(alloc, namespaces, &mut left, scope)?;
        Ok(())
    }

    /// Puts the place of the top of a module behind the others.
    pub fn push_global(&mut self) -> Result<(), NoMemory>
        ensures { OnOk result (self.new ≡ self.old ++ reached_top ∷ []) }
    {
        self.which.push(0)?;
        Ok(())
    }

    /// Puts the place of a rank behind the others once more.
    pub fn push_again(&mut self, rank: usize) -> Result<(), NoMemory>
        ensures { OnOk result ((r : Reached) → slice_get self.old rank ≡ Some r → self.new ≡ self.old ++ r ∷ []) }
    {
        if let Some(which) = self.which.get(rank) {
            self.which.push(which)?;
        }
        Ok(())
    }

    /// Puts the place of what the statement of a rank opens behind the others.
    pub fn push_inside(&mut self, rank: usize, inside: Inside) -> Result<(), NoMemory>
        ensures { OnOk result ((r : Reached) → slice_get self.old rank ≡ Some r → self.new ≡ self.old ++ reached_through r inside.space inside.written ∷ []) }
    {
        let Some(outer) = self.which.get(rank) else {
            return Ok(());
        };
        self.kept.push(Place {
            space: inside.space,
            outer,
            written: inside.written,
        })?;
        self.which.push(self.kept.len())?;
        Ok(())
    }
}

/// The place of a number among those kept; none for the top of a module.
fn place_at(kept: &[Place], number: usize) -> Option<&Place>
    requires { AreBehind kept.now }
    ensures { MatchOption result (reached_at kept.now number ≡ reached_top) (λ p. (reached_at kept.now number ≡ reached_by (reached_at kept.now p.now.outer) p.now) × (p.now.outer < number)) }
{
    let before = number.checked_sub(1)?;
    let place = kept.get(before)?;
    Some(place)
}

/// The namespace of the place of a number.
fn space_of(kept: &[Place], number: usize) -> usize
    requires { AreBehind kept.now }
    ensures { result ≡ (reached_at kept.now number).0 }
{
    match place_at(kept, number) {
        None => 0,
        Some(place) => place.space,
    }
}

/// Adds the blocks in which a place is, the innermost first. Gives the namespaces that are left: those in which the blocks are
/// written that are inherited on the way, the innermost first.
fn add_blocks(
    alloc: Global,
    kept: &[Place],
    number: usize,
    scope: &mut ScopeList,
) -> Result<Vec<usize>, NoMemory>
    requires { AreBehind kept.now }
    ensures { IfOk result (λ left. (ss : List Space) → with_numbers scope.new (numbers_left ss reached_top left.items) ≡ with_numbers scope.old (numbers_left ss (reached_at kept.now number) [])) }
{
    let mut left = Vec::new(alloc);
    let mut at = number;
    while let Some(place) = place_at(kept, at) {
        add_block(place, scope, &mut left)?;
        at = place.outer;
    }
    Ok(left)
}

/// Adds the block of a place, or to what is left the namespace in which the inherited block is written.
fn add_block(place: &Place, scope: &mut ScopeList, left: &mut Vec<usize>) -> Result<(), NoMemory>
    ensures { OnOk result ((ss : List Space) (r : Reached) → with_numbers scope.new (numbers_left ss r left.new.items) ≡ with_numbers scope.old (numbers_left ss (reached_by r place.now) left.old.items)) }
{
    match place.written {
        None => scope.add(place.space)?,
        Some(written) => left.push(written)?,
    }
    Ok(())
}

/// Adds the namespaces round those that are left, the last of them first.
fn add_chains(
    alloc: Global,
    namespaces: &Namespaces,
    left: &mut Vec<usize>,
    scope: &mut ScopeList,
) -> Result<(), NoMemory>
    ensures { OnOk result (scope.new ≡ with_numbers scope.old (numbers_left namespaces.now reached_top left.old.items)) }
{
    let mut gone_up = IndexSet::new(alloc);
    while let Some(written) = left.pop() {
        scope.add_chain(namespaces, written, &mut gone_up)?;
    }
    Ok(())
}
