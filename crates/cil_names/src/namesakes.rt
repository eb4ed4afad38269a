//! The few entries of a name in a name space, whatever their namespaces.

ghost use Rattle.std.specs.Prelude.{◌↔◌, IfSome, IsTrue};
ghost use Rattle.std.specs.List.Sorted.{IsStrictlySortedBy};
ghost use Rattle.std.specs.Ordering.{on};
ghost use Rattle.cil_names.specs.Entries.{by_name_cmp, key_of};
ghost use Rattle.cil_names.specs.Soles.{AreRanked, IsEnd, IsNamedAt};

use crate::entry::Entry;
use crate::guesses::{FEW, Guesses, WAYS};

/// The entries of one name, which stand beside one another.
#[derive(Clone, Copy)]
pub struct Namesakes {
    /// The number of the first.
    pub first: usize,
    /// The number behind the last.
    pub end: usize,
}

/// The entries of a name in a name space, if they are few and that was guessed. It costs one hash, and a comparison of names for
/// each of them and for two more. None says nothing.
pub fn few_named(entries: &[Entry], guesses: &Guesses, name: &[u8], rank: u8) -> Option<Namesakes>
    requires { IsStrictlySortedBy (on key_of by_name_cmp) entries.now }
    ensures { IfSome result (AreRanked entries.now (record { name = name.now; rank = rank })) }
{
    let slot = guesses.slot(name);
    for way in 0..WAYS {
        let Some(place) = guesses.guess(slot, way) else {
            return None;
        };
        if is_named(entries, place, name, rank) {
            return few_from(entries, place, name, rank);
        }
    }
    None
}

/// The entries of a name, if the one at a place is the first of them and they are few.
fn few_from(entries: &[Entry], first: usize, name: &[u8], rank: u8) -> Option<Namesakes>
    requires sorted { IsStrictlySortedBy (on key_of by_name_cmp) entries.now }
    requires named { IsNamedAt entries.now (record { name = name.now; rank = rank }) first }
    ensures { IfSome result (AreRanked entries.now (record { name = name.now; rank = rank })) }
{
    let Some(end) = end_from(entries, first, name, rank) else {
        return None;
    };
    if let Some(before) = first.checked_sub(1) {
        if is_named(entries, before, name, rank) {
            return None;
        }
    }
    Some(Namesakes { first, end })
}

/// The place behind some entries of one name, of which the first is given, if they are few.
fn end_from(entries: &[Entry], first: usize, name: &[u8], rank: u8) -> Option<usize>
    requires { IsNamedAt entries.now (record { name = name.now; rank = rank }) first }
    ensures { IfSome result (IsEnd entries.now (record { name = name.now; rank = rank }) first) }
{
    let Some(behind) = first.checked_add(1) else {
        return None;
    };
    let Some(limit) = behind.checked_add(FEW) else {
        return None;
    };
    for end in behind..limit {
        if !is_named(entries, end, name, rank) {
            return Some(end);
        }
    }
    None
}

/// Whether the entry at a place has this name in this name space.
pub fn is_named(entries: &[Entry], place: usize, name: &[u8], rank: u8) -> bool
    ensures { IsTrue result ↔ IsNamedAt entries.now (record { name = name.now; rank = rank }) place }
{
    let Some(entry) = entries.get(place) else {
        return false;
    };
    if entry.kind.rank() != rank {
        return false;
    }
    entry.name.as_slice() == name
}
