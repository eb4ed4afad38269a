//! What all that instances ask for means, as rows that the passes read.

ghost use Rattle.std.specs.Prelude.{◌≡◌, [], IfOk, List, find, get_or, map};
ghost use Rattle.std.specs.Global.{Vec as Vector};
ghost use Rattle.cil_base.specs.declared.bytes.Bytes.{Bytes as Text};
ghost use Rattle.cil_blocks.specs.declared.namespaces.Space.{Space};
ghost use Rattle.cil_macros.specs.Item.{Item, OptSet as AnOptSet};
ghost use Rattle.cil_names.specs.declared.entry.Entry.{Entry as AnEntry};
ghost use Rattle.cil_names.specs.Entries.{is_declared_in, is_in};
ghost use Rattle.cil_names.specs.PermissionWords.{meanings};
ghost use Rattle.cil_names.specs.Rows.{IsTableOf};
ghost use Rattle.cil_names.specs.Unresolved.{ArePermissions};
ghost use Rattle.cil_words.specs.Table.{AreNumberedAsks, ask_value, word_ask};

use crate::asks::Asks;
use crate::cells::Cells;
use cil_base::NoMemory;
use cil_names::{Meaning, Names, OptSet, Words, flags_of, is_set};
use std::alloc::Global;

/// What all that instances ask for means where these optionals are in force: for each word the first entry that it could name and
/// that is declared, and for each permission its number among those of its class. It costs a step for each entry until then, and
/// no look-up. The table is freed when it has been read: what words mean takes no more room than it did. Error: out of memory.
pub fn settled(
    alloc: Global,
    names: &Names,
    asks: Asks,
    enabled: &OptSet,
) -> Result<Words, NoMemory>
    ensures { IfOk result (λ words. (ss : List Space) (xs : List Item) (lists : List (Vector Text)) → AreNumberedAsks ss names.now xs lists asks → ArePermissions ss names.now xs lists
        → IsTableOf (map (meanings ss names.now lists (is_in enabled.now)) xs) words) }
{
    let declared = flags_of(alloc, names.entries(), enabled.as_slice())?;
    settled_by(alloc, declared.as_slice(), asks)
}

/// The same, by flags of the entries that are declared.
fn settled_by(alloc: Global, declared: &[bool], asks: Asks) -> Result<Words, NoMemory>
    ensures { IfOk result (λ words. (ss : List Space) (es : List AnEntry) (xs : List Item) (lists : List (Vector Text)) (s : AnOptSet) → declared.now ≡ map (is_declared_in s) es
        → AreNumberedAsks ss es xs lists asks → ArePermissions ss es xs lists → IsTableOf (map (meanings ss es lists s) xs) words) }
{
    let (starts, cells) = asks.into_rows();
    let words = meanings_of(alloc, declared, &cells)?;
    Ok(Words::of(starts, words))
}

/// What the words of all lists mean, by flags of the entries that are declared.
fn meanings_of(alloc: Global, declared: &[bool], cells: &Cells) -> Result<Vec<Meaning>, NoMemory>
    ensures { IfOk result (λ words. words.items ≡ map (ask_value (is_in declared.now)) cells.now) }
{
    let mut words = Vec::with_capacity(alloc, cells.len())?;
    for place in 0..cells.len() {
        words.push(Meaning::of(value_at(declared, cells, place))?)?;
    }
    Ok(words)
}

/// What the word of a list means: the number of a permission; and else the first entry that the word could name and that is
/// declared.
fn value_at(declared: &[bool], cells: &Cells, place: usize) -> Option<usize>
    ensures { result ≡ ask_value (is_in declared.now) (get_or cells.now place (word_ask [])) }
{
    match cells.number(place) {
        None => first_declared(declared, cells.row(place)),
        Some(number) => number,
    }
}

/// The first entry of a list that is declared.
pub fn first_declared(declared: &[bool], list: &[u32]) -> Option<usize>
    ensures { result ≡ find (is_in declared.now) list.now }
{
    for entry in list {
        if is_declared(declared, *entry) {
            return Some(*entry as usize);
        }
    }
    None
}

/// Whether an entry is declared, by flags of the entries that are.
fn is_declared(declared: &[bool], entry: u32) -> bool
    ensures { result ≡ is_in declared.now entry }
{
    is_set(declared, entry as usize)
}
