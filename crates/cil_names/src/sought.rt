//! What is known of a word before its scope is gone through, so that it is found out once, and not once for each
//! namespace.

ghost use Rattle.std.specs.Prelude.{◌≡◌, MatchOption, false};
ghost use Rattle.std.specs.List.Sorted.{IsStrictlySortedBy};
ghost use Rattle.std.specs.Ordering.{on};
ghost use Rattle.cil_syntax.specs.Kinds.{is_wanted};
ghost use Rattle.cil_names.specs.Entries.{by_name_cmp, key_of};
ghost use Rattle.cil_names.specs.Sought.{IsSought};

use crate::entry::Entry;
use crate::guesses::Guesses;
use crate::namesakes::{Namesakes, few_named};
use cil_syntax::{Path, Word, path_of};

/// A word that wants some kind, as look-up goes about it.
#[derive(Clone, Copy)]
pub struct Sought<'w> {
    /// Its names.
    pub path: Path<'w>,
    /// The place of the name space of what it wants.
    pub rank: u8,
    /// The entries of its name, where it is one name without dots and that was guessed.
    pub same: Option<Namesakes>,
}

/// How look-up goes about a word; none where it wants no kind, as a permission. It costs one hash.
pub fn seek<'w>(entries: &[Entry], guesses: &Guesses, word: &'w Word<'_>) -> Option<Sought<'w>>
    requires { IsStrictlySortedBy (on key_of by_name_cmp) entries.now }
    ensures { MatchOption result ((kind : _) → is_wanted word.now.sign kind ≡ false) (IsSought entries.now word.now) }
{
    let Some(rank) = word.sign.rank() else {
        return None;
    };
    let path = path_of(word.bytes.as_slice());
    if !path.dotless {
        return Some(Sought {
            path,
            rank,
            same: None,
        });
    }
    let same = few_named(entries, guesses, path.names, rank);
    Some(Sought { path, rank, same })
}
