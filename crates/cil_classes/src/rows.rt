//! The rows of the classes: each has the permissions that are listed for its declared name.

ghost use Rattle.std.specs.Prelude.{◌≡◌, ◌+◌, ◌<◌, ◌++◌, IfOk, OnOk, get_or, length};
ghost use Rattle.cil_names.specs.Entries.{is_in};
ghost use Rattle.cil_known.specs.Numbers.{AreApart, AreNumbers, names_of};
ghost use Rattle.cil_names.specs.Unresolved.{listed_at};
ghost use Rattle.cil_classes.specs.ClassRows.{AreClassEntries, AreListed, AreRowsOf};

use crate::row::Class;
use cil_base::{Bytes, Names, NoMemory};
use cil_known::Numbering;
use cil_names::Lookup;
use cil_syntax::Kind;
use std::alloc::Global;

/// The rows of the classes, in the order of their names. A class costs a copy of its name and of its permissions.
pub fn class_rows(
    alloc: Global,
    lookup: &Lookup,
    numbering: &Numbering,
    permissions: &[Vec<Bytes>],
) -> Result<Vec<Class>, NoMemory>
    requires numbers { AreNumbers lookup.now.namespaces.now lookup.now.names.now (is_in lookup.now.enabled.now) (names_of numbering.now.sections) numbering.now.numbers.items }
    requires apart { AreApart lookup.now.names.now (is_in lookup.now.enabled.now) numbering.now.numbers.items }
    ensures { IfOk result (λ rows. AreRowsOf lookup.now.namespaces.now lookup.now.names.now (is_in lookup.now.enabled.now) permissions.now numbering.now.sections.classes.items rows.items) }
{
    let names = numbering.sections.classes.as_slice();
    let places = class_entries(alloc, lookup, numbering)?;
    rows_of(alloc, names, places.as_slice(), permissions)
}

/// For each number of a class its entry.
fn class_entries(
    alloc: Global,
    lookup: &Lookup,
    numbering: &Numbering,
) -> Result<Vec<usize>, NoMemory>
    requires numbers { AreNumbers lookup.now.namespaces.now lookup.now.names.now (is_in lookup.now.enabled.now) (names_of numbering.now.sections) numbering.now.numbers.items }
    requires apart { AreApart lookup.now.names.now (is_in lookup.now.enabled.now) numbering.now.numbers.items }
    ensures len { IfOk result (λ places. length places.items ≡ length numbering.now.sections.classes.items) }
    ensures entries { IfOk result (λ places. AreClassEntries lookup.now.names.now (is_in lookup.now.enabled.now) numbering.now.numbers.items (length lookup.now.names.now) places.items) }
{
    let mut places = vec![in alloc; 0; numbering.sections.classes.len()]?;
    for d in 0..lookup.names.entries().len() {
        note_class(&mut places, lookup, numbering, d);
    }
    Ok(places)
}

/// Notes an entry at the number of its class, where it is one.
fn note_class(places: &mut Vec<usize>, lookup: &Lookup, numbering: &Numbering, d: usize)
    requires numbers { AreNumbers lookup.now.namespaces.now lookup.now.names.now (is_in lookup.now.enabled.now) (names_of numbering.now.sections) numbering.now.numbers.items }
    requires apart { AreApart lookup.now.names.now (is_in lookup.now.enabled.now) numbering.now.numbers.items }
    requires within { d < length lookup.now.names.now }
    requires len { length places.old.items ≡ length numbering.now.sections.classes.items }
    ensures len { length places.new.items ≡ length numbering.now.sections.classes.items }
    ensures noted { AreClassEntries lookup.now.names.now (is_in lookup.now.enabled.now) numbering.now.numbers.items d places.old.items
        → AreClassEntries lookup.now.names.now (is_in lookup.now.enabled.now) numbering.now.numbers.items (d + 1) places.new.items }
{
    let entry = &lookup.names.entries()[d];
    if !entry.is_declared_as(Kind::Class, lookup.enabled) {
        return;
    }
    let number = number_at(numbering.numbers.as_slice(), d);
    places[number] = d;
}

fn number_at(numbers: &[usize], d: usize) -> usize
    ensures { result ≡ get_or numbers.now d 0 }
{
    match numbers.get(d) {
        Some(number) => *number,
        None => 0,
    }
}

/// The rows of these names, with the permissions that are listed for the entries at these places.
fn rows_of(
    alloc: Global,
    names: &[Bytes],
    places: &[usize],
    permissions: &[Vec<Bytes>],
) -> Result<Vec<Class>, NoMemory>
    ensures { IfOk result (λ rows. AreListed names.now places.now permissions.now rows.items) }
{
    let mut rows = Vec::new(alloc);
    for number in 0..names.len() {
        rows.push(Class {
            name: Bytes::copy_of(alloc, names[number].as_slice())?,
            permissions: permissions_at(alloc, permissions, number_at(places, number))?,
        })?;
    }
    Ok(rows)
}

/// The permissions that are listed for an entry.
fn permissions_at(alloc: Global, permissions: &[Vec<Bytes>], d: usize) -> Result<Names, NoMemory>
    ensures { IfOk result (λ names. names ≡ listed_at permissions.now d) }
{
    match permissions.get(d) {
        Some(list) => copied_all(alloc, list.as_slice()),
        None => Ok(Names::from_vec(Vec::new(alloc))),
    }
}

fn copied_all(alloc: Global, names: &[Bytes]) -> Result<Names, NoMemory>
    ensures { IfOk result (λ copies. copies ≡ names.now) }
{
    let mut copies = Vec::new(alloc);
    push_copies(alloc, &mut copies, names)?;
    Ok(Names::from_vec(copies))
}

/// Adds copies of some names.
fn push_copies(alloc: Global, copies: &mut Vec<Bytes>, names: &[Bytes]) -> Result<(), NoMemory>
    ensures { OnOk result (copies.new.items ≡ copies.old.items ++ names.now) }
{
    for name in names {
        copies.push(Bytes::copy_of(alloc, name.as_slice())?)?;
    }
    Ok(())
}
