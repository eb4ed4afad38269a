//! Look-up of words in scopes, over namespaces and a slice of entries.

ghost use Rattle.std.specs.Prelude.{◌≡◌, length, ◌≤◌, ◌++◌, All, OnOk, find};
ghost use Rattle.cil_names.specs.Entries.{AreOrdered, candidates_of, is_declared_at, is_in, listed, scoped};
ghost use Rattle.cil_names.specs.Sought.{IsSought, could_name};

use crate::by_name::{entry_in, entry_of};
use crate::enabled::where_declared;
use crate::entry::Entry;
use crate::guesses::Guesses;
use crate::sought::{Sought, seek};
use cil_base::NoMemory;
use cil_macros::Namespaces;
use cil_macros::asked::{asked_in, asked_scope};
use cil_syntax::Word;

/// Adds the numbers of the entries that a word could name, whatever is enabled, in the order of its scope. A word that wants
/// no kind, as a permission, costs nothing.
pub fn push_candidates(
    namespaces: &Namespaces,
    entries: &[Entry],
    guesses: &Guesses,
    word: &Word,
    scope: &[usize],
    found: &mut Vec<usize>,
) -> Result<(), NoMemory>
    requires entries { AreOrdered namespaces.now entries.now }
    requires within { All (λ k. k ≤ length namespaces.now) scope.now }
    ensures found { OnOk result (found.new.items ≡ found.old.items ++ candidates_of namespaces.now entries.now (scoped namespaces.now scope.now word.now)) }
    ensures none_lost { length found.old.items ≤ length found.new.items }
{
    let Some(sought) = seek(entries, guesses, word) else {
        return Ok(());
    };
    for from in asked_scope(sought.path.global, scope) {
        let named = named_in(namespaces, entries, guesses, word, &sought, *from);
        match push_listed(found, named) {
            Ok(()) => {}
            Err(failure) => return Err(failure),
        }
    }
    Ok(())
}

/// Adds a number, if there is one.
pub fn push_listed(found: &mut Vec<usize>, named: Option<usize>) -> Result<(), NoMemory>
    ensures found { OnOk result (found.new.items ≡ found.old.items ++ listed named) }
    ensures none_lost { length found.old.items ≤ length found.new.items }
{
    if let Some(d) = named {
        found.push(d)?;
    }
    Ok(())
}

/// The number of the entry that a word names: the first that it could name and that is declared where these optionals are
/// enabled. A word that wants no kind, as a permission, costs nothing. Else an entry that it could name costs a step for each
/// statement that declares it, until one is enabled.
pub fn resolve(
    namespaces: &Namespaces,
    entries: &[Entry],
    guesses: &Guesses,
    enabled: &[bool],
    word: &Word,
    scope: &[usize],
) -> Option<usize>
    requires entries { AreOrdered namespaces.now entries.now }
    requires within { All (λ k. k ≤ length namespaces.now) scope.now }
    ensures { result ≡ find (is_declared_at (is_in enabled.now) entries.now) (candidates_of namespaces.now entries.now (scoped namespaces.now scope.now word.now)) }
{
    let Some(sought) = seek(entries, guesses, word) else {
        return None;
    };
    for from in asked_scope(sought.path.global, scope) {
        let named = named_in(namespaces, entries, guesses, word, &sought, *from);
        let declared = where_declared(enabled, entries, named);
        if declared.is_some() {
            return declared;
        }
    }
    None
}

/// The number of the entry that a word could name in one namespace, whatever is enabled.
fn named_in(
    namespaces: &Namespaces,
    entries: &[Entry],
    guesses: &Guesses,
    word: &Word,
    sought: &Sought,
    from: usize,
) -> Option<usize>
    requires entries { AreOrdered namespaces.now entries.now }
    requires sought { IsSought entries.now word.now sought.now }
    requires within { from ≤ length namespaces.now }
    ensures { listed result ≡ could_name namespaces.now entries.now word.now from }
{
    namespaces.are_namespaces();
    let path = sought.path;
    if path.dotless {
        return entry_of(
            entries,
            sought.same,
            from,
            path.names,
            sought.rank,
            word.sign,
        );
    }
    let Some(place) = asked_in(namespaces, from, path.names) else {
        return None;
    };
    entry_in(entries, guesses, place.space, place.name, word.sign)
}
