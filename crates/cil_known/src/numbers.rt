//! The numbers of declared symbols: the order of their qualified names, kind by kind.

ghost use Rattle.std.specs.Prelude.{◌≡◌, ◌++◌, ◌∷◌, [], IfOk, OnOk, map, length, ◌≤◌, true};
ghost use Rattle.std.specs.List.{flat_map};
ghost use Rattle.std.specs.List.Sorted.{IsStrictlySortedBy};
ghost use Rattle.cil_base.specs.Lists.{Lists, text_cmp};
ghost use Rattle.cil_syntax.specs.declared.kind.Kind as kinds;
ghost use Rattle.cil_names.specs.Entries.{AreOrdered, is_in};
ghost use Rattle.cil_known.specs.Numbers.{AreApart, AreNumbers, ArePlainNames, IsNameAmong, has_section, name_given, names_of, place_in, spelled_of};

use crate::spelled::spelled;
use cil_base::NoMemory;
use cil_names::{Entry, Lookup, Namespaces, OptSet, place_among};
use cil_syntax::{Bytes, Kind};
use std::alloc::Global;

/// The qualified names of the declared symbols that have sections, each kind in byte order.
#[derive(Drop)]
pub struct Sections {
    /// The users.
    pub users: Vec<Bytes>,
    /// The roles.
    pub roles: Vec<Bytes>,
    /// The types.
    pub types: Vec<Bytes>,
    /// The classes.
    pub classes: Vec<Bytes>,
    /// The booleans.
    pub booleans: Vec<Bytes>,
    /// The sensitivities.
    pub sensitivities: Vec<Bytes>,
    /// The categories.
    pub categories: Vec<Bytes>,
}

/// Numbering symbols: the names of each section, and the number of each entry in the section of its kind.
#[derive(Drop)]
pub struct Numbering {
    /// The names.
    pub sections: Sections,
    /// For each entry its number; 0 for those that have none.
    pub numbers: Vec<usize>,
}

/// Numbers the declared symbols. It costs a sort of the names of each kind, and a search by halving for each entry.
pub fn numbered(alloc: Global, lookup: &Lookup) -> Result<Numbering, NoMemory>
    requires { AreOrdered lookup.now.namespaces.now lookup.now.names.now }
    ensures numbers { IfOk result (λ n. AreNumbers lookup.now.namespaces.now lookup.now.names.now (is_in lookup.now.enabled.now) (names_of n.sections) n.numbers.items) }
    // A number for each entry, by its place.
    ensures all { IfOk result (λ n. n.numbers.items ≡ map (λ e. place_in (names_of n.sections e.kind) (spelled_of lookup.now.namespaces.now e)) lookup.now.names.now) }
    // Where no name has a dot, two symbols of one kind have two numbers.
    ensures apart { IfOk result (λ n. ArePlainNames lookup.now.namespaces.now lookup.now.names.now → AreApart lookup.now.names.now (is_in lookup.now.enabled.now) n.numbers.items) }
{
    let namespaces = lookup.namespaces;
    namespaces.are_namespaces();
    let entries = lookup.names.entries();
    let sections = sections_of(alloc, namespaces, entries, lookup.enabled)?;
    let numbers = numbers_of(alloc, namespaces, entries, &sections)?;
    Ok(Numbering { sections, numbers })
}

/// The names of all sections.
fn sections_of(
    alloc: Global,
    namespaces: &Namespaces,
    entries: &[Entry],
    enabled: &OptSet,
) -> Result<Sections, NoMemory>
    requires { AreOrdered namespaces.now entries.now }
    ensures { IfOk result (λ n. (kind : kinds.Kind) → has_section kind ≡ true → Lists text_cmp (IsNameAmong namespaces.now entries.now (is_in enabled.now) kind) (names_of n kind)) }
{
    let mut sections = Sections::none(alloc);
    fill_sections(alloc, namespaces, entries, enabled, &mut sections)?;
    Ok(sections)
}

/// Makes each section anew.
fn fill_sections(
    alloc: Global,
    namespaces: &Namespaces,
    entries: &[Entry],
    enabled: &OptSet,
    sections: &mut Sections,
) -> Result<(), NoMemory>
    requires { AreOrdered namespaces.now entries.now }
    ensures { OnOk result ((kind : kinds.Kind) → has_section kind ≡ true → Lists text_cmp (IsNameAmong namespaces.now entries.now (is_in enabled.now) kind) (names_of sections.new kind)) }
{
    sections.users = section_of(alloc, namespaces, entries, enabled, Kind::User)?;
    sections.roles = section_of(alloc, namespaces, entries, enabled, Kind::Role)?;
    sections.types = section_of(alloc, namespaces, entries, enabled, Kind::Type_)?;
    sections.classes = section_of(alloc, namespaces, entries, enabled, Kind::Class)?;
    sections.booleans = section_of(alloc, namespaces, entries, enabled, Kind::Boolean)?;
    sections.sensitivities = section_of(alloc, namespaces, entries, enabled, Kind::Sensitivity)?;
    sections.categories = section_of(alloc, namespaces, entries, enabled, Kind::Category)?;
    Ok(())
}

/// The names of the declared symbols of one kind, in byte order, each once.
fn section_of(
    alloc: Global,
    namespaces: &Namespaces,
    entries: &[Entry],
    enabled: &OptSet,
    kind: Kind,
) -> Result<Vec<Bytes>, NoMemory>
    requires { AreOrdered namespaces.now entries.now }
    ensures { IfOk result (λ names. Lists text_cmp (IsNameAmong namespaces.now entries.now (is_in enabled.now) kind) names.items) }
{
    let mut names = given(alloc, namespaces, entries, enabled, kind)?;
    names.sort_unstable();
    names.dedup();
    Ok(names)
}

/// The names of the declared symbols of one kind, as they come.
fn given(
    alloc: Global,
    namespaces: &Namespaces,
    entries: &[Entry],
    enabled: &OptSet,
    kind: Kind,
) -> Result<Vec<Bytes>, NoMemory>
    requires { AreOrdered namespaces.now entries.now }
    ensures { IfOk result (λ names. names.items ≡ flat_map (name_given namespaces.now (is_in enabled.now) kind) entries.now) }
{
    let mut names = Vec::new(alloc);
    for entry in entries {
        if entry.is_declared_as(kind, enabled) {
            push_name(alloc, &mut names, namespaces, entry)?;
        }
    }
    Ok(names)
}

/// Adds the qualified name of an entry.
fn push_name(
    alloc: Global,
    names: &mut Vec<Bytes>,
    namespaces: &Namespaces,
    entry: &Entry,
) -> Result<(), NoMemory>
    requires { entry.now.space ≤ length namespaces.now }
    ensures { OnOk result (names.new.items ≡ names.old.items ++ spelled_of namespaces.now entry.now ∷ []) }
{
    names.push(spelled(alloc, namespaces, entry.space, entry.name.as_slice())?)?;
    Ok(())
}

/// The place of the name of each entry in the section of its kind.
fn numbers_of(
    alloc: Global,
    namespaces: &Namespaces,
    entries: &[Entry],
    sections: &Sections,
) -> Result<Vec<usize>, NoMemory>
    requires ordered { AreOrdered namespaces.now entries.now }
    requires rising { (kind : kinds.Kind) → IsStrictlySortedBy text_cmp (names_of sections.now kind) }
    ensures { IfOk result (λ numbers. numbers.items ≡ map (λ e. place_in (names_of sections.now e.kind) (spelled_of namespaces.now e)) entries.now) }
{
    let mut numbers = Vec::new(alloc);
    for entry in entries {
        let name = spelled(alloc, namespaces, entry.space, entry.name.as_slice())?;
        numbers.push(place_of(sections.names(entry.kind), name.as_slice()))?;
    }
    Ok(numbers)
}

/// The place of a name in rising names; 0 where it is not there.
fn place_of(names: &[Bytes], name: &[u8]) -> usize
    requires { IsStrictlySortedBy text_cmp names.now }
    ensures { result ≡ place_in names.now name.now }
{
    place_among(names, name).unwrap_or(0)
}

impl Sections {
    /// No names.
    fn none(alloc: Global) -> Sections {
        Sections {
            users: Vec::new(alloc),
            roles: Vec::new(alloc),
            types: Vec::new(alloc),
            classes: Vec::new(alloc),
            booleans: Vec::new(alloc),
            sensitivities: Vec::new(alloc),
            categories: Vec::new(alloc),
        }
    }

    /// The names of the symbols of one kind.
    pub fn names(&self, kind: Kind) -> &[Bytes]
        ensures { result.now ≡ names_of self.now kind }
    {
        match kind {
            Kind::User => self.users.as_slice(),
            Kind::Role => self.roles.as_slice(),
            Kind::Type_ => self.types.as_slice(),
            Kind::Class => self.classes.as_slice(),
            Kind::Boolean => self.booleans.as_slice(),
            Kind::Sensitivity => self.sensitivities.as_slice(),
            Kind::Category => self.categories.as_slice(),
            _ => &[],
        }
    }
}
