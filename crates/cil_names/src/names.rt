//! The declared names of a policy, and what words name.

ghost use Rattle.std.specs.Prelude.{◌≡◌, ◌≤◌, ◌<◌, ◌++◌, ◌∷◌, [], All, Contains, IfOk, IfSome, List, MatchOption, OnOk, find, length};
ghost use Rattle.std.specs.Global.{Vec as Vector};
ghost use Rattle.std.specs.List.Sorted.{IsStrictlySortedBy};
ghost use Rattle.std.specs.Ordering.{on};
ghost use Rattle.cil_base.specs.Lists.{text_cmp};
ghost use Rattle.cil_base.specs.declared.bytes.Bytes.{Bytes as Text};
ghost use Rattle.cil_names.specs.Entries.{AreEntries, AreOrdered, HasNoEntryIn, IsAnswer, IsEntryIn, candidates_of, is_declared_at, is_in, by_name_cmp, key_of, listed, scoped};
ghost use Rattle.cil_macros.specs.Item.{Item, OptSet as OptionalSet};
ghost use Rattle.cil_syntax.specs.Scopes.{EndsGlobally, Scope};
ghost use Rattle.cil_macros.specs.blocks.Space.{Space};
ghost use Rattle.cil_names.specs.Soles.{in_scope};
ghost use Rattle.cil_names.specs.PermissionWords.{IsAnswerFor, wanted_candidates};
ghost use Rattle.cil_names.specs.Resolves.{Permission};
ghost use Rattle.cil_macros.specs.blocks.Namespaces.{space_at};
ghost use Rattle.cil_names.specs.Unresolved.{ArePermissions};

use crate::by_name::entry_in;
use crate::entry::Entry;
use crate::guesses::Guesses;
use crate::look::{push_candidates, resolve};
use crate::opt_set::OptSet;
use crate::permission_word::class_with;
use crate::unscoped::{push_in_scope, unscoped_entry};
use cil_base::NoMemory;
use cil_macros::{Namespaces, ScopeList};
use cil_syntax::{Bytes, Sign, Word};
use std::alloc::Global;
use std::marker::Model;

/// The declared names of a policy: an entry for each name of a name space in a namespace, by rising name, name space and
/// number of the namespace. The number of an entry is its place. Contracts see them as a list.
#[derive(Debug, Drop)]
pub struct Names<'a> {
    entries: Vec<Entry<'a>>,
    guesses: Guesses,
}

impl<'a> Model for Names<'a> {
    ghost use Rattle.std.specs.Prelude.{List};
    ghost use Rattle.std.specs.List.Sorted.{IsStrictlySortedBy};
    ghost use Rattle.std.specs.Ordering.{on};
    ghost use Rattle.cil_names.specs.declared.entry.Entry.{Entry};
    ghost use Rattle.cil_names.specs.Entries.{by_name_cmp, key_of};

    ghost Value = { List Entry };

    ghost view = { λ a. a.entries.items };

    ghost invariant = { λ a. IsStrictlySortedBy (on key_of by_name_cmp) a.entries.items };
}

impl<'a> Names<'a> {
    ghost use Rattle.std.specs.Prelude.{◌≡◌, MatchOption};
    ghost use Rattle.cil_names.specs.Entries.{AreOrdered, by_name_cmp, key_of};
    ghost use Rattle.std.specs.List.Sorted.{IsStrictlySortedBy};
    ghost use Rattle.std.specs.Ordering.{on};

    /// These entries. Error: out of memory.
    pub fn of(alloc: Global, entries: Vec<Entry<'a>>) -> Result<Names<'a>, NoMemory>
        requires { IsStrictlySortedBy (on key_of by_name_cmp) entries.items }
        ensures { IfOk result (λ names. names ≡ entries.entry.items) }
    {
        let guesses = Guesses::of(alloc, entries.as_slice())?;
        Ok(Names { entries, guesses })
    }

    /// The entries, in order.
    pub fn entries(&self) -> &[Entry<'a>]
        ensures value { result.now ≡ self.now }
        ensures rising { IsStrictlySortedBy (on key_of by_name_cmp) result.now }
    {
        self.entries.as_slice()
    }

    /// Where the entries of names may be.
    pub fn guesses(&self) -> &Guesses {
        &self.guesses
    }

    /// The number of the entry of a wanted kind under this name in the namespace of this number, whatever is enabled. It
    /// costs one hash for a name that one entry has, and else one search by halving.
    pub fn entry(
        &self,
        namespaces: &Namespaces,
        space: usize,
        name: &[u8],
        sign: Sign,
    ) -> Option<usize>
        requires ordered { AreOrdered namespaces.now self.now }
        requires within { space ≤ length namespaces.now }
        ensures { MatchOption result (HasNoEntryIn namespaces.now self.now name.now sign (space_at namespaces.now space)) (IsEntryIn namespaces.now self.now name.now sign (space_at namespaces.now space)) }
    {
        namespaces.are_namespaces();
        let entries = self.entries.as_slice();
        entry_in(entries, &self.guesses, space, name, sign)
    }

    /// The numbers of the entries that a word could name, whatever is enabled, in the order of its scope. A word without
    /// dots costs one hash, and a step for each namespace of its scope, if one entry has its name. Else each namespace
    /// costs one search by halving, and one hash for each name before a dot.
    pub fn candidates(
        &self,
        alloc: Global,
        namespaces: &Namespaces,
        word: &Word,
        scope: &[usize],
    ) -> Result<Vec<usize>, NoMemory>
        requires ordered { AreOrdered namespaces.now self.now }
        requires within { All (λ k. k ≤ length namespaces.now) scope.now }
        ensures { IfOk result (λ ds. ds.items ≡ candidates_of namespaces.now self.now (scoped namespaces.now scope.now word.now)) }
    {
        let mut found = Vec::new(alloc);
        push_candidates(
            namespaces,
            self.entries(),
            self.guesses(),
            word,
            scope,
            &mut found,
        )?;
        Ok(found)
    }

    /// The number of the one entry that a word could name in every scope that ends with the global namespace, as the scope of
    /// all that is placed does: the one entry of its name, if it is in that namespace and the word has no dots. None says
    /// nothing. It costs one hash, and no scope.
    pub fn unscoped(&self, word: &Word) -> Option<usize>
        ensures candidate { IfSome result (λ d. (ss : List Space) (scope : Scope) → EndsGlobally scope → candidates_of ss self.now (in_scope scope word.now) ≡ d ∷ []) }
        ensures within { IfSome result (λ d. d < length self.now) }
    {
        unscoped_entry(self.entries(), self.guesses(), word)
    }

    /// Adds the numbers of the entries that a word could name, whatever is enabled, in the order of its scope. A word without
    /// dots costs one hash and one question to the scope, if one entry has its name. Else it costs what `candidates` costs.
    pub fn push_candidates(
        &self,
        found: &mut Vec<usize>,
        namespaces: &Namespaces,
        word: &Word,
        scope: &ScopeList,
    ) -> Result<(), NoMemory>
        requires ordered { AreOrdered namespaces.now self.now }
        requires within { All (λ k. k ≤ length namespaces.now) scope.now }
        ensures found { OnOk result (found.new.items ≡ found.old.items ++ candidates_of namespaces.now self.now (scoped namespaces.now scope.now word.now)) }
        ensures none_lost { length found.old.items ≤ length found.new.items }
    {
        push_in_scope(
            namespaces,
            self.entries(),
            self.guesses(),
            word,
            scope,
            found,
        )
    }

    /// The number of the entry that a word names in a scope where these optionals are enabled. It costs what
    /// `candidates` costs, and takes no memory.
    pub fn resolve(
        &self,
        namespaces: &Namespaces,
        word: &Word,
        scope: &[usize],
        enabled: &OptSet,
    ) -> Option<usize>
        requires ordered { AreOrdered namespaces.now self.now }
        requires within { All (λ k. k ≤ length namespaces.now) scope.now }
        ensures first { result ≡ find (is_declared_at (is_in enabled.now) self.now) (candidates_of namespaces.now self.now (scoped namespaces.now scope.now word.now)) }
        ensures within { IfSome result (λ d. d < length self.now) }
        // Where these are the declared names of some instances, it is what the word names among them.
        ensures names { (xs : List Item) → AreEntries namespaces.now xs self.now → IsAnswer namespaces.now xs self.now (is_in enabled.now) (scoped namespaces.now scope.now word.now) result }
    {
        namespaces.are_namespaces();
        resolve(
            namespaces,
            self.entries.as_slice(),
            &self.guesses,
            enabled.as_slice(),
            word,
            scope,
        )
    }

    /// The number of the class or class map that a permission word names, which is its one candidate: that of its class
    /// word, if it has the permission. Classes do not hang on optionals, so this does not either. The permissions are
    /// given in byte order, as a list for each entry. It costs what `resolve` costs for the class word, and two searches
    /// by halving; it takes no memory.
    pub fn resolve_permission(
        &self,
        namespaces: &Namespaces,
        permissions: &[Vec<Bytes>],
        class: &Word,
        permission: &Word,
        scope: &[usize],
    ) -> Option<usize>
        requires ordered { AreOrdered namespaces.now self.now }
        requires sorted { (v : Vector Text) → Contains permissions.now v → IsStrictlySortedBy text_cmp v.items }
        requires within { All (λ k. k ≤ length namespaces.now) scope.now }
        ensures within { IfSome result (λ d. d < length self.now) }
        // Where these are the declared names of some instances, and the permissions of their classes, it is what the
        // permission could name and what it names.
        ensures candidate { (xs : List Item) → AreEntries namespaces.now xs self.now → ArePermissions namespaces.now self.now xs permissions.now
            → listed result ≡ wanted_candidates namespaces.now self.now xs (Permission (scoped namespaces.now scope.now class.now) (scoped namespaces.now scope.now permission.now)) }
        ensures names { (xs : List Item) (s : OptionalSet) → AreEntries namespaces.now xs self.now → ArePermissions namespaces.now self.now xs permissions.now
            → IsAnswerFor namespaces.now xs self.now s (Permission (scoped namespaces.now scope.now class.now) (scoped namespaces.now scope.now permission.now)) result }
    {
        namespaces.are_namespaces();
        class_with(
            namespaces,
            self.entries(),
            self.guesses(),
            permissions,
            class,
            permission,
            scope,
        )
    }
}
