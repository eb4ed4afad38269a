//! The entry of a wanted kind under a name in a namespace.

ghost use Rattle.std.specs.Prelude.{◌≡◌, ◌↔◌, IfSome, IsTrue, MatchOption};
ghost use Rattle.std.specs.List.Sorted.{IsStrictlySortedBy};
ghost use Rattle.std.specs.Ordering.{on};
ghost use Rattle.cil_base.specs.Found.{IsFound, IsMissing};
ghost use Rattle.cil_names.specs.Entries.{HasNoEntry, IsEntryAt, by_name_cmp, key_of};
ghost use Rattle.cil_names.specs.Soles.{AreNamesakes, AreRanked, IsOfRank, IsWantedIn};

use crate::entry::Entry;
use crate::guesses::Guesses;
use crate::namesakes::{Namesakes, few_named};
use cil_syntax::Sign;
use std::cmp::Ordering;

/// The number of the entry of a wanted kind under this name in a namespace. It costs one hash for a name that few
/// entries have, and else one search by halving.
pub fn entry_in(
    entries: &[Entry],
    guesses: &Guesses,
    space: usize,
    name: &[u8],
    sign: Sign,
) -> Option<usize>
    requires { IsStrictlySortedBy (on key_of by_name_cmp) entries.now }
    ensures { MatchOption result (HasNoEntry entries.now name.now sign space) (IsEntryAt entries.now name.now sign space) }
{
    let Some(rank) = sign.rank() else {
        return None;
    };
    let same = few_named(entries, guesses, name, rank);
    entry_of(entries, same, space, name, rank, sign)
}

/// The same, where the name space is given, and the entries of the name, or none. So a word looks up its name once, and
/// not once for each namespace of its scope.
pub fn entry_of(
    entries: &[Entry],
    same: Option<Namesakes>,
    space: usize,
    name: &[u8],
    rank: u8,
    sign: Sign,
) -> Option<usize>
    requires sorted { IsStrictlySortedBy (on key_of by_name_cmp) entries.now }
    requires ranked { IsOfRank sign rank }
    requires same { IfSome same (AreRanked entries.now (record { name = name.now; rank = rank })) }
    ensures { MatchOption result (HasNoEntry entries.now name.now sign space) (IsEntryAt entries.now name.now sign space) }
{
    match same {
        Some(few) => among(entries, few, space, name, sign),
        None => by_halving(entries, space, name, rank, sign),
    }
}

/// The same among the entries of the name.
fn among(entries: &[Entry], same: Namesakes, space: usize, name: &[u8], sign: Sign) -> Option<usize>
    requires sorted { IsStrictlySortedBy (on key_of by_name_cmp) entries.now }
    requires same { AreNamesakes entries.now name.now sign same }
    ensures { MatchOption result (HasNoEntry entries.now name.now sign space) (IsEntryAt entries.now name.now sign space) }
{
    for place in same.first..same.end {
        if is_wanted_in(entries, place, space, sign) {
            return Some(place);
        }
    }
    None
}

/// The same by halving.
fn by_halving(entries: &[Entry], space: usize, name: &[u8], rank: u8, sign: Sign) -> Option<usize>
    requires sorted { IsStrictlySortedBy (on key_of by_name_cmp) entries.now }
    requires ranked { IsOfRank sign rank }
    ensures { MatchOption result (HasNoEntry entries.now name.now sign space) (IsEntryAt entries.now name.now sign space) }
{
    let Some(place) = place_of(entries, space, name, rank) else {
        return None;
    };
    if !is_wanted_in(entries, place, space, sign) {
        return None;
    }
    Some(place)
}

/// The place of the entry with this key.
fn place_of(entries: &[Entry], space: usize, name: &[u8], rank: u8) -> Option<usize>
    requires { IsStrictlySortedBy (on key_of by_name_cmp) entries.now }
    ensures { MatchOption result (IsMissing key_of entries.now (record { space = space; name = name.now; rank = rank })) (IsFound key_of entries.now (record { space = space; name = name.now; rank = rank })) }
{
    entries
        .binary_search_by(|entry| compare_key(entry, space, name, rank))
        .ok()
}

/// How the key of an entry compares with a key.
fn compare_key(entry: &Entry, space: usize, name: &[u8], rank: u8) -> Ordering
    ensures { result ≡ by_name_cmp (key_of entry.now) (record { space = space; name = name.now; rank = rank }) }
{
    entry
        .name
        .as_slice()
        .cmp(name)
        .then(entry.kind.rank().cmp(&rank))
        .then(entry.space.cmp(&space))
}

/// Whether the entry at a place is of a wanted kind and in a namespace.
pub fn is_wanted_in(entries: &[Entry], place: usize, space: usize, sign: Sign) -> bool
    ensures { IsTrue result ↔ IsWantedIn entries.now space sign place }
{
    let Some(entry) = entries.get(place) else {
        return false;
    };
    if entry.space != space {
        return false;
    }
    sign.wants(entry.kind)
}
