//! Words without dots whose name one entry has: no long scope is gone through for them.

ghost use Rattle.std.specs.Prelude.{◌≡◌, ◌≤◌, ◌<◌, ◌++◌, ◌∷◌, [], All, IfSome, List, OnOk, length};
ghost use Rattle.std.specs.List.Sorted.{IsStrictlySortedBy};
ghost use Rattle.std.specs.Ordering.{on};
ghost use Rattle.cil_syntax.specs.Scopes.{EndsGlobally, Scope};
ghost use Rattle.cil_macros.specs.blocks.Space.{Space};
ghost use Rattle.cil_names.specs.Entries.{AreOrdered, by_name_cmp, candidates_of, key_of, listed, scoped};
ghost use Rattle.cil_names.specs.Soles.{IsSoleOf, in_scope};

use crate::by_name::is_wanted_in;
use crate::entry::Entry;
use crate::guesses::Guesses;
use crate::look::{push_candidates, push_listed};
use crate::namesakes::few_named;
use cil_base::NoMemory;
use cil_macros::{Namespaces, ScopeList};
use cil_syntax::{Word, parted};

/// How many namespaces are sooner gone through than asked.
const SHORT_SCOPE: usize = 8;

/// The number of the one entry that a word could name, in every scope that ends with the global namespace: an entry of that
/// namespace, which alone has the name of the word. None says nothing. It costs one hash.
pub fn unscoped_entry(entries: &[Entry], guesses: &Guesses, word: &Word) -> Option<usize>
    requires { IsStrictlySortedBy (on key_of by_name_cmp) entries.now }
    ensures candidate { IfSome result (λ d. (ss : List Space) (scope : Scope) → EndsGlobally scope → candidates_of ss entries.now (in_scope scope word.now) ≡ d ∷ []) }
    ensures within { IfSome result (λ d. d < length entries.now) }
{
    let Some(place) = sole_word(entries, guesses, word) else {
        return None;
    };
    if !is_wanted_in(entries, place, 0, word.sign) {
        return None;
    }
    Some(place)
}

/// Adds the numbers of the entries that a word could name, whatever is enabled, in the order of its scope. A longer scope is asked
/// once where one entry has the name of a word without dots; else it is gone through.
pub fn push_in_scope(
    namespaces: &Namespaces,
    entries: &[Entry],
    guesses: &Guesses,
    word: &Word,
    scope: &ScopeList,
    found: &mut Vec<usize>,
) -> Result<(), NoMemory>
    requires entries { AreOrdered namespaces.now entries.now }
    requires within { All (λ k. k ≤ length namespaces.now) scope.now }
    ensures found { OnOk result (found.new.items ≡ found.old.items ++ candidates_of namespaces.now entries.now (scoped namespaces.now scope.now word.now)) }
    ensures none_lost { length found.old.items ≤ length found.new.items }
{
    let numbers = scope.as_slice();
    if numbers.len() > SHORT_SCOPE {
        if let Some(place) = sole_word(entries, guesses, word) {
            return push_listed(found, one_in(namespaces, entries, place, word, scope));
        }
    }
    push_candidates(namespaces, entries, guesses, word, numbers, found)
}

/// The number of the entry at a place, which alone has the name of a word, if the word could name it in a scope.
fn one_in(
    namespaces: &Namespaces,
    entries: &[Entry],
    place: usize,
    word: &Word,
    scope: &ScopeList,
) -> Option<usize>
    requires entries { AreOrdered namespaces.now entries.now }
    requires within { All (λ k. k ≤ length namespaces.now) scope.now }
    requires sole { IsSoleOf entries.now word.now place }
    ensures { listed result ≡ candidates_of namespaces.now entries.now (scoped namespaces.now scope.now word.now) }
{
    namespaces.are_namespaces();
    scope.are_apart();
    let Some(entry) = entries.get(place) else {
        return None;
    };
    let sign = word.sign;
    if !sign.wants(entry.kind) {
        return None;
    }
    if !scope.contains(entry.space) {
        return None;
    }
    Some(place)
}

/// The place of the one entry that has the name of a word without dots, if that was guessed.
fn sole_word(entries: &[Entry], guesses: &Guesses, word: &Word) -> Option<usize>
    requires { IsStrictlySortedBy (on key_of by_name_cmp) entries.now }
    ensures { IfSome result (IsSoleOf entries.now word.now) }
{
    let Some(rank) = word.sign.rank() else {
        return None;
    };
    let name = word.bytes.as_slice();
    if parted(name).is_some() {
        return None;
    }
    let Some(same) = few_named(entries, guesses, name, rank) else {
        return None;
    };
    if same.end - same.first != 1 {
        return None;
    }
    Some(same.first)
}
