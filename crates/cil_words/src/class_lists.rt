//! The walk at a class list: the entries that the class word could name, and the numbers of the permissions behind it.

ghost use Rattle.std.specs.Prelude.{◌≡◌, ◌<◌, ◌∷◌, [], Contains, IfOk, IfSome, OnOk, length, map};
ghost use Rattle.std.specs.Global.{Vec as Vector};
ghost use Rattle.std.specs.List.Sorted.{IsStrictlySortedBy};
ghost use Rattle.cil_base.specs.Lists.{text_cmp};
ghost use Rattle.cil_base.specs.declared.bytes.Bytes.{Bytes as Text};
ghost use Rattle.cil_macros.specs.Item.{all_words_in, words_in};
ghost use Rattle.cil_names.specs.Classes.{IsClassFor, IsClassOf};
ghost use Rattle.cil_macros.specs.Items.{all_placed, namespaces_in, scoped_by};
ghost use Rattle.cil_names.specs.Entries.{AreOrdered, candidates_of};
ghost use Rattle.cil_names.specs.Readings.{module_of, scoped_there, word_read};
ghost use Rattle.cil_names.specs.Resolves.{Permission as APermission, Word as AWord, words_of_class};
ghost use Rattle.cil_names.specs.Unresolved.{term_with, terms_with};
ghost use Rattle.cil_syntax.specs.Scopes.{ScopedWord};
ghost use Rattle.cil_words.specs.Scopes.{AreScopes, IsLast};
ghost use Rattle.cil_words.specs.Walks.{AddsFor, IsWalk, spaces_by};

use crate::cells::Cells;
use crate::scopes::{LastScope, Scopes};
use crate::walk::Walk;
use crate::word_lists::unscoped;
use cil_base::NoMemory;
use cil_macros::{Instances, PlacedWord};
use cil_names::reading::is_at;
use cil_names::{Class, Names, class_at, class_of, permission_of};
use cil_syntax::{Bytes, Term, word_and_terms};
use std::alloc::Global;

impl<'r, 's, 'p, 'a> Walk<'r, 's, 'p, 'a> {
    /// Adds the lists of a class word and of permissions behind it.
    pub fn class_permissions(
        &'r self,
        cells: &mut Cells,
        scopes: &mut Scopes,
        class: &PlacedWord,
        permissions: &[PlacedWord],
    ) -> Result<(), NoMemory>
        requires walk { IsWalk self.now }
        requires scopes { AreScopes self.now.reading.instances.now scopes.old }
        ensures asks { OnOk result (AddsFor self.now (AWord (scoped_there self.now.reading class.now) ∷ map (λ p. APermission (scoped_there self.now.reading class.now) (scoped_there self.now.reading p)) permissions.now) cells.old cells.new) }
        ensures scopes { OnOk result (AreScopes self.now.reading.instances.now scopes.new) }
    {
        let found = self.class_word(cells, scopes, class)?;
        self.placed_permissions(cells, found, permissions)
    }

    /// Adds the lists of permissions of a class that was found.
    fn placed_permissions(
        &'r self,
        cells: &mut Cells,
        found: Option<Class<'_>>,
        permissions: &[PlacedWord],
    ) -> Result<(), NoMemory>
        requires walk { IsWalk self.now }
        requires rising { IfSome found (λ k. IsStrictlySortedBy text_cmp k.permissions.now) }
        ensures { OnOk result ((c : ScopedWord) → IsClassFor (spaces_by self.now) self.now.names.now self.now.permissions.now c found.entry
            → AddsFor self.now (map (λ p. APermission c (scoped_there self.now.reading p)) permissions.now) cells.old cells.new) }
    {
        for permission in permissions {
            self.placed_permission(cells, found, permission)?;
        }
        Ok(())
    }

    /// Adds the list of a permission of a class that was found.
    fn placed_permission(
        &'r self,
        cells: &mut Cells,
        found: Option<Class<'_>>,
        permission: &PlacedWord,
    ) -> Result<(), NoMemory>
        requires walk { IsWalk self.now }
        requires rising { IfSome found (λ k. IsStrictlySortedBy text_cmp k.permissions.now) }
        ensures { OnOk result ((c : ScopedWord) → IsClassFor (spaces_by self.now) self.now.names.now self.now.permissions.now c found.entry
            → AddsFor self.now (APermission c (scoped_there self.now.reading permission.now) ∷ []) cells.old cells.new) }
    {
        let name = permission.word.bytes.as_slice();
        let guess = cells.guess(found, name);
        cells.push_permission(permission_of(found, name, guess.number), &guess)
    }

    /// Adds the lists of a class word and of the permissions behind it.
    pub fn class_list(
        &'r self,
        cells: &mut Cells,
        scopes: &mut Scopes,
        terms: &[Term<'a>],
    ) -> Result<(), NoMemory>
        requires walk { IsWalk self.now }
        requires scopes { AreScopes self.now.reading.instances.now scopes.old }
        ensures asks { OnOk result (AddsFor self.now (words_of_class (terms_with (word_read self.now.reading) (module_of self.now.reading) terms.now)) cells.old cells.new) }
        ensures scopes { OnOk result (AreScopes self.now.reading.instances.now scopes.new) }
    {
        let Some(list) = word_and_terms(terms, self.reading.statement.at.module) else {
            return Ok(());
        };
        let class = self.reading.word(&list.word);
        let found = self.class_word(cells, scopes, &class)?;
        self.permissions(cells, found, list.terms)
    }

    /// Adds the list of what a class word could name, and gives the class that it names, with its permissions. Where its name has
    /// one entry in all, in the global namespace, that costs one hash, and no scope is asked.
    fn class_word(
        &'r self,
        cells: &mut Cells,
        scopes: &mut Scopes,
        class: &PlacedWord,
    ) -> Result<Option<Class<'r>>, NoMemory>
        requires walk { IsWalk self.now }
        requires scopes { AreScopes self.now.reading.instances.now scopes.old }
        ensures asks { OnOk result (AddsFor self.now (AWord (scoped_there self.now.reading class.now) ∷ []) cells.old cells.new) }
        ensures class { IfOk result (IsClassFor (spaces_by self.now) self.now.names.now self.now.permissions.now (scoped_there self.now.reading class.now)) }
        ensures scopes { OnOk result (AreScopes self.now.reading.instances.now scopes.new) }
    {
        let Some(entry) = unscoped(self.reading.instances, self.names, class) else {
            self.scoped(cells, scopes, class)?;
            return self.scoped_class(scopes, class);
        };
        cells.push_one(entry)?;
        self.class_of_entry(scopes, class, entry)
    }

    /// The class that a class word names, if the word could name just the entry of a number.
    fn class_of_entry(
        &'r self,
        scopes: &mut Scopes,
        class: &PlacedWord,
        entry: usize,
    ) -> Result<Option<Class<'r>>, NoMemory>
        requires walk { IsWalk self.now }
        requires scopes { AreScopes self.now.reading.instances.now scopes.old }
        requires within { entry < length self.now.names.now }
        requires candidate { candidates_of (spaces_by self.now) self.now.names.now (scoped_there self.now.reading class.now) ≡ entry ∷ [] }
        ensures class { IfOk result (IsClassFor (spaces_by self.now) self.now.names.now self.now.permissions.now (scoped_there self.now.reading class.now)) }
        ensures scopes { OnOk result (AreScopes self.now.reading.instances.now scopes.new) }
    {
        if let Some(found) = class_there(
            self.reading.instances,
            self.names,
            self.permissions,
            entry,
        ) {
            return Ok(Some(found));
        }
        self.scoped_class(scopes, class)
    }

    /// The class that a class word names, where the scope of the word is asked.
    fn scoped_class(
        &'r self,
        scopes: &mut Scopes,
        class: &PlacedWord,
    ) -> Result<Option<Class<'r>>, NoMemory>
        requires walk { IsWalk self.now }
        requires scopes { AreScopes self.now.reading.instances.now scopes.old }
        ensures class { IfOk result (IsClassFor (spaces_by self.now) self.now.names.now self.now.permissions.now (scoped_there self.now.reading class.now)) }
        ensures scopes { OnOk result (AreScopes self.now.reading.instances.now scopes.new) }
    {
        if is_at(class.scope, self.reading.at) {
            class_in(
                self.alloc,
                self.reading.instances,
                self.names,
                self.permissions,
                &mut scopes.own,
                class,
            )
        } else {
            class_in(
                self.alloc,
                self.reading.instances,
                self.names,
                self.permissions,
                &mut scopes.other,
                class,
            )
        }
    }

    /// Adds the lists of the permissions among some terms, of a class that was found.
    #[cycle(permissions)]
    fn permissions(
        &'r self,
        cells: &mut Cells,
        found: Option<Class<'_>>,
        terms: &[Term<'a>],
    ) -> Result<(), NoMemory>
        requires walk { IsWalk self.now }
        requires rising { IfSome found (λ k. IsStrictlySortedBy text_cmp k.permissions.now) }
        ensures { OnOk result ((c : ScopedWord) → IsClassFor (spaces_by self.now) self.now.names.now self.now.permissions.now c found.entry
            → AddsFor self.now (map (APermission c) (all_words_in (terms_with (word_read self.now.reading) (module_of self.now.reading) terms.now))) cells.old cells.new) }
    {
        for term in terms {
            self.permission(cells, found, term)?;
        }
        Ok(())
    }

    #[cycle(permissions)]
    fn permission(
        &'r self,
        cells: &mut Cells,
        found: Option<Class<'_>>,
        term: &Term<'a>,
    ) -> Result<(), NoMemory>
        requires walk { IsWalk self.now }
        requires rising { IfSome found (λ k. IsStrictlySortedBy text_cmp k.permissions.now) }
        ensures { OnOk result ((c : ScopedWord) → IsClassFor (spaces_by self.now) self.now.names.now self.now.permissions.now c found.entry
            → AddsFor self.now (map (APermission c) (words_in (term_with (word_read self.now.reading) (module_of self.now.reading) term.now))) cells.old cells.new) }
    {
        match term {
            Term::Leaf(word) => {
                let written = word.in_module(self.reading.statement.at.module);
                self.placed_permission(cells, found, &self.reading.word(&written))
            }
            Term::Name(_, _) => Ok(()),
            Term::Form(_, _, parts) => self.permissions(cells, found, parts.as_slice()),
        }
    }
}

/// The class that a class word names, where this is the scope that was filled last.
fn class_in<'r>(
    alloc: Global,
    instances: &Instances,
    names: &Names,
    permissions: &'r [Vec<Bytes>],
    last: &mut LastScope,
    class: &PlacedWord,
) -> Result<Option<Class<'r>>, NoMemory>
    requires ordered { AreOrdered (namespaces_in instances.now) names.now }
    requires rising { (v : Vector Text) → Contains permissions.now v → IsStrictlySortedBy text_cmp v.items }
    requires last { IsLast instances.now last.old }
    ensures class { IfOk result (IsClassFor (namespaces_in instances.now) names.now permissions.now (scoped_by (all_placed instances.now) class.now)) }
    ensures last { OnOk result (IsLast instances.now last.new) }
{
    last.fill(alloc, instances, class.scope)?;
    Ok(class_of(
        instances.namespaces(),
        names.entries(),
        names.guesses(),
        permissions,
        &class.word,
        last.scope.as_slice(),
    ))
}

/// The class that is the entry of a number, if it is declared outside all optionals.
fn class_there<'r>(
    instances: &Instances,
    names: &Names,
    permissions: &'r [Vec<Bytes>],
    entry: usize,
) -> Option<Class<'r>>
    requires ordered { AreOrdered (namespaces_in instances.now) names.now }
    requires rising { (v : Vector Text) → Contains permissions.now v → IsStrictlySortedBy text_cmp v.items }
    requires within { entry < length names.now }
    ensures { IfSome result (λ k. (w : ScopedWord) → candidates_of (namespaces_in instances.now) names.now w ≡ entry ∷ []
        → IsClassOf (namespaces_in instances.now) names.now permissions.now w k) }
{
    class_at(
        instances.namespaces(),
        names.entries(),
        names.guesses(),
        permissions,
        entry,
    )
}
