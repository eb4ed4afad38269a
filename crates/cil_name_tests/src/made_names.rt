//! Declared names that are made by hand, from entries that rise.

ghost use Rattle.std.specs.Prelude.{◌≡◌, ◌↔◌, ◌≤◌, ℕ, All, IfOk, IsTrue, MatchOption, Some, length, slice_get};
ghost use Rattle.std.specs.List.Sorted.{IsStrictlySortedBy};
ghost use Rattle.std.specs.Ordering.{on};
ghost use Rattle.cil_names.specs.declared.entry.Entry.{Entry as AnEntry};
ghost use Rattle.cil_names.specs.Entries.{AreOrdered, by_name_cmp, key_of};

use cil_base::NoMemory;
use cil_blocks::Namespaces;
use cil_names::{Entry, Names};
use std::alloc::Global;

/// The declared names with these entries; none where they do not rise, or one is in none of the namespaces. Error: out of memory.
pub fn names_with<'a>(
    alloc: Global,
    namespaces: &Namespaces,
    entries: Vec<Entry<'a>>,
) -> Result<Option<Names<'a>>, NoMemory>
    ensures { IfOk result (λ made. MatchOption made (AreOrdered namespaces.now entries.entry.items → ⊥)
        (λ names. (names ≡ entries.entry.items) × AreOrdered namespaces.now names)) }
{
    if !rise(entries.as_slice()) {
        return Ok(None);
    }
    if !are_within(namespaces, entries.as_slice()) {
        return Ok(None);
    }
    Ok(Some(Names::of(alloc, entries)?))
}

/// Whether entries rise by their names, name spaces and the numbers of their namespaces.
fn rise(entries: &[Entry]) -> bool
    ensures { IsTrue result ↔ IsStrictlySortedBy (on key_of by_name_cmp) entries.now }
{
    entries.is_sorted_by(|a, b| {
        a.name
            .as_slice()
            .cmp(b.name.as_slice())
            .then(a.kind.rank().cmp(&b.kind.rank()))
            .then(a.space.cmp(&b.space))
            .is_lt()
    })
}

/// Whether each entry is in one of the namespaces.
fn are_within(namespaces: &Namespaces, entries: &[Entry]) -> bool
    ensures { IsTrue result ↔ ((i : ℕ) (e : AnEntry) → slice_get entries.now i ≡ Some e → e.space ≤ length namespaces.now) }
{
    let most = namespaces.len();
    for entry in entries {
        if entry.space > most {
            return false;
        }
    }
    true
}

/// Whether these are numbers of namespaces.
pub fn are_numbers(namespaces: &Namespaces, numbers: &[usize]) -> bool
    ensures { IsTrue result ↔ All (λ k. k ≤ length namespaces.now) numbers.now }
{
    let most = namespaces.len();
    for number in numbers {
        if *number > most {
            return false;
        }
    }
    true
}
