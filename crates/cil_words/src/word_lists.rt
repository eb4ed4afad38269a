//! The walk at a word: the entries that it could name.

ghost use Rattle.std.specs.Prelude.{◌≡◌, ◌<◌, ◌++◌, ◌∷◌, [], IfSome, OnOk, length};
ghost use Rattle.cil_macros.specs.Items.{all_placed, namespaces_in, scoped_by};
ghost use Rattle.cil_names.specs.Entries.{AreOrdered, candidates_of};
ghost use Rattle.cil_names.specs.Readings.{scoped_there};
ghost use Rattle.cil_names.specs.Resolves.{Word as AWord};
ghost use Rattle.cil_words.specs.Scopes.{AreScopes, IsLast};
ghost use Rattle.cil_words.specs.Table.{word_ask};
ghost use Rattle.cil_words.specs.Walks.{AddsFor, IsWalk};

use crate::cells::Cells;
use crate::scopes::{LastScope, Scopes};
use crate::walk::Walk;
use cil_base::NoMemory;
use cil_macros::{Instances, PlacedWord};
use cil_names::Names;
use cil_names::reading::is_at;
use std::alloc::Global;

impl<'r, 's, 'p, 'a> Walk<'r, 's, 'p, 'a> {
    /// Adds the list of what a word could name. Where its name has one entry in all, in the global namespace, that costs one hash,
    /// and no scope is asked.
    pub fn word(
        &'r self,
        cells: &mut Cells,
        scopes: &mut Scopes,
        word: &PlacedWord,
    ) -> Result<(), NoMemory>
        requires walk { IsWalk self.now }
        requires scopes { AreScopes self.now.reading.instances.now scopes.old }
        ensures asks { OnOk result (AddsFor self.now (AWord (scoped_there self.now.reading word.now) ∷ []) cells.old cells.new) }
        ensures scopes { OnOk result (AreScopes self.now.reading.instances.now scopes.new) }
    {
        if let Some(entry) = unscoped(self.reading.instances, self.names, word) {
            return cells.push_one(entry);
        }
        self.scoped(cells, scopes, word)
    }

    /// The same where the scope of the word is asked.
    pub fn scoped(
        &'r self,
        cells: &mut Cells,
        scopes: &mut Scopes,
        word: &PlacedWord,
    ) -> Result<(), NoMemory>
        requires walk { IsWalk self.now }
        requires scopes { AreScopes self.now.reading.instances.now scopes.old }
        ensures asks { OnOk result (AddsFor self.now (AWord (scoped_there self.now.reading word.now) ∷ []) cells.old cells.new) }
        ensures scopes { OnOk result (AreScopes self.now.reading.instances.now scopes.new) }
    {
        if is_at(word.scope, self.reading.at) {
            push_found(
                self.alloc,
                self.reading.instances,
                self.names,
                cells,
                &mut scopes.own,
                word,
            )
        } else {
            push_found(
                self.alloc,
                self.reading.instances,
                self.names,
                cells,
                &mut scopes.other,
                word,
            )
        }
    }
}

/// The one entry that a word could name whatever its scope is. None says nothing.
pub fn unscoped(instances: &Instances, names: &Names, word: &PlacedWord) -> Option<usize>
    ensures within { IfSome result (λ d. d < length names.now) }
    ensures candidate { IfSome result (λ d. candidates_of (namespaces_in instances.now) names.now (scoped_by (all_placed instances.now) word.now) ≡ d ∷ []) }
{
    let Some(place) = word.scope else {
        return None;
    };
    if place >= instances.len() {
        return None;
    }
    instances.are_closed();
    names.unscoped(&word.word)
}

/// Adds the list of what a word could name, where this is the scope that was filled last. A name that few entries have costs one
/// hash, and a step for each of them and each namespace of the scope.
fn push_found(
    alloc: Global,
    instances: &Instances,
    names: &Names,
    cells: &mut Cells,
    last: &mut LastScope,
    word: &PlacedWord,
) -> Result<(), NoMemory>
    requires ordered { AreOrdered (namespaces_in instances.now) names.now }
    requires last { IsLast instances.now last.old }
    ensures asks { OnOk result (cells.new ≡ cells.old ++ word_ask (candidates_of (namespaces_in instances.now) names.now (scoped_by (all_placed instances.now) word.now)) ∷ []) }
    ensures last { OnOk result (IsLast instances.now last.new) }
{
    last.fill(alloc, instances, word.scope)?;
    last.found.clear();
    names.push_candidates(
        &mut last.found,
        instances.namespaces(),
        &word.word,
        &last.scope,
    )?;
    cells.push(last.found.as_slice())
}
