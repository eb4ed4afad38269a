//! Names, aliases and sets of categories, put behind the bytes that are there.

ghost use Rattle.std.specs.Prelude.{◌≡◌, ◌++◌, [], IfOk, OnOk};
ghost use Rattle.std.specs.Int.{w16, to_be_bytes};
ghost use Rattle.std.specs.List.{flat_map};
ghost use Rattle.cil_format.specs.Fields.{text};
ghost use Rattle.cil_label_bytes.specs.Layout as layout;
ghost use Rattle.cil_label_bytes.specs.Sets as sets;

use cil_base::{Bytes, NoMemory};
use cil_format::{put_count, put_small, put_text};
use cil_mls::{Categories, MOST_CATEGORIES, Named};
use std::alloc::Global;

/// Names, one behind the other. Errors: out of memory.
pub fn put_names(out: &mut Vec<u8>, names: &[Bytes]) -> Result<(), NoMemory>
    ensures { OnOk result (out.new.items ≡ out.old.items ++ flat_map text.spell names.now) }
{
    for name in names {
        put_text(out, name.as_slice())?;
    }
    Ok(())
}

/// A section of aliases. Errors: out of memory.
pub fn put_aliases(out: &mut Vec<u8>, aliases: &[Named]) -> Result<(), NoMemory>
    ensures { OnOk result (out.new.items ≡ out.old.items ++ (layout.aliases []).spell aliases.now) }
{
    put_count(out, aliases.len())?;
    put_rows(out, aliases)
}

/// Aliases, one behind the other.
fn put_rows(out: &mut Vec<u8>, aliases: &[Named]) -> Result<(), NoMemory>
    ensures { OnOk result (out.new.items ≡ out.old.items ++ flat_map (layout.alias []).spell aliases.now) }
{
    for alias in aliases {
        put_alias(out, alias)?;
    }
    Ok(())
}

/// An alias: its name, and the place for which it stands.
fn put_alias(out: &mut Vec<u8>, alias: &Named) -> Result<(), NoMemory>
    ensures { OnOk result (out.new.items ≡ out.old.items ++ (layout.alias []).spell alias.now) }
{
    put_text(out, alias.name.as_slice())?;
    put_small(out, alias.place)
}

/// A set of categories. Errors: out of memory.
pub fn put_categories(alloc: Global, out: &mut Vec<u8>, set: &Categories) -> Result<(), NoMemory>
    ensures { OnOk result (out.new.items ≡ out.old.items ++ (sets.categories_below 0).spell set.now) }
{
    let members = members_of(alloc, set)?;
    put_small(out, members.len())?;
    put_numbers(out, &members)
}

/// The categories of a set, rising.
fn members_of(alloc: Global, set: &Categories) -> Result<Vec<u16>, NoMemory>
    ensures { IfOk result (λ members. members.items ≡ sets.numbers_in set.now) }
{
    let mut members = Vec::new(alloc);
    for category in 0..MOST_CATEGORIES {
        if set.has(category) {
            members.push(category as u16)?;
        }
    }
    Ok(members)
}

/// Numbers of two bytes, one behind the other.
fn put_numbers(out: &mut Vec<u8>, numbers: &[u16]) -> Result<(), NoMemory>
    ensures { OnOk result (out.new.items ≡ out.old.items ++ flat_map (to_be_bytes w16) numbers.now) }
{
    for number in numbers {
        put_small(out, *number as usize)?;
    }
    Ok(())
}
