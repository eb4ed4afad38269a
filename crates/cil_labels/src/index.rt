//! The names that contexts may use, in byte order, each with the place for which it stands.

ghost use Rattle.std.specs.Prelude.{◌≡◌, ◌↔◌, Contains, IfOk, IsTrue, OnOk, length};
ghost use Rattle.cil_base.specs.Lists.{Lists};
ghost use Rattle.cil_mls.specs.LevelTexts.{IsWithout};
ghost use Rattle.cil_labels.specs.LevelTable.{IsWritable};
ghost use Rattle.cil_labels.specs.Rows.{Gains, IsAliasRow, IsBelow, IsNameRow, IsRow, IsRowOf, row_cmp};

use cil_base::{Bytes, NoMemory};
use cil_mls::Named;
use std::alloc::Global;
use std::cmp::Ordering;

/// The names that can be written, those of items at their places and those of aliases, in byte order, and by their places where two
/// are equal. It copies each name, and sorts them. Error: out of memory.
pub fn index_of(alloc: Global, names: &[Bytes], aliases: &[Named]) -> Result<Vec<Named>, NoMemory>
    ensures { IfOk result (λ index. Lists row_cmp (IsRow names.now aliases.now) index.items) }
{
    let mut rows = Vec::new(alloc);
    push_names(alloc, &mut rows, names)?;
    push_aliases(alloc, &mut rows, aliases)?;
    Ok(listed(rows))
}

/// The rows in order, each once.
fn listed(mut rows: Vec<Named>) -> Vec<Named>
    ensures { Lists row_cmp (Contains rows.items) result.items }
{
    rows.sort_unstable_by(|a, b| compare(a, b));
    rows.dedup_by(|a, b| compare(a, b).is_eq());
    rows
}

/// The order of two rows.
fn compare(a: &Named, b: &Named) -> Ordering
    ensures { result ≡ row_cmp a.now b.now }
{
    a.name
        .as_slice()
        .cmp(b.name.as_slice())
        .then(a.place.cmp(&b.place))
}

/// Adds the names of items, each with its place.
fn push_names(alloc: Global, rows: &mut Vec<Named>, names: &[Bytes]) -> Result<(), NoMemory>
    ensures { OnOk result (Gains (IsBelow (IsNameRow names.now) (length names.now)) rows.old.items rows.new.items) }
{
    for (place, name) in names.iter().enumerate() {
        push_row(alloc, rows, name.as_slice(), place)?;
    }
    Ok(())
}

/// Adds the names of aliases, each with the place for which it stands.
fn push_aliases(alloc: Global, rows: &mut Vec<Named>, aliases: &[Named]) -> Result<(), NoMemory>
    ensures { OnOk result (Gains (IsBelow (IsAliasRow aliases.now) (length aliases.now)) rows.old.items rows.new.items) }
{
    for alias in aliases {
        push_row(alloc, rows, alias.name.as_slice(), alias.place)?;
    }
    Ok(())
}

/// Adds a name, if it can be written.
fn push_row(alloc: Global, rows: &mut Vec<Named>, name: &[u8], place: usize) -> Result<(), NoMemory>
    ensures { OnOk result (Gains (IsRowOf name.now place) rows.old.items rows.new.items) }
{
    if !is_writable(name) {
        return Ok(());
    }
    let name = Bytes::copy_of(alloc, name)?;
    rows.push(Named { name, place })?;
    Ok(())
}

/// Whether a name can be written in a context: it has no hyphen and no dot.
fn is_writable(name: &[u8]) -> bool
    ensures { IsTrue result ↔ IsWritable name.now }
{
    is_without(name, b'-') && is_without(name, b'.')
}

/// Whether no byte of a text is this one.
fn is_without(text: &[u8], byte: u8) -> bool
    ensures { IsTrue result ↔ IsWithout byte text.now }
{
    text.iter().all(|b| *b != byte)
}
