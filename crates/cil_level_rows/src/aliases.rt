//! The aliases of sensitivities and of categories: their names, with the places of the items for which they stand.

ghost use Rattle.std.specs.Prelude.{◌≡◌, ◌↔◌, ◌⊎◌, ◌<◌, ◌≤◌, ◌++◌, ℕ, All, Contains, IfOk, IsTrue, OnOk, length, map};
ghost use Rattle.std.specs.List.Sorted.{IsPermutation, IsStrictlySortedBy};
ghost use Rattle.cil_base.specs.Lists.{Lists};
ghost use Rattle.cil_syntax.specs.declared.kind.Kind.TheVariants as kinds;
ghost use Rattle.cil_macros.specs.Items.{items_in, namespaces_in};
ghost use Rattle.cil_names.specs.Entries.{AreOrdered};
ghost use Rattle.cil_names.specs.Rows.{IsTableOf};
ghost use Rattle.cil_known.specs.Known.{IsKnown, enabled_in, row_in};
ghost use Rattle.cil_known.specs.Numbers.{AreApart, names_of, spelled_of};
ghost use Rattle.cil_mls.specs.declared.named.Named.{Named as ANamed};
ghost use Rattle.cil_mls.specs.Names.{named_cmp};
ghost use Rattle.cil_mls.specs.OrderFaults.{AreOrders};
ghost use Rattle.cil_ranges.specs.levels_crate.Begun.{AreOnce};
ghost use Rattle.cil_level_rows.specs.AliasEntries.{AreAliasesBelow, AreItems, IsEntryAlias, ListsAliases, alias_to};
ghost use Rattle.cil_level_rows.specs.Rows.{IsAliasRow};

use cil_base::NoMemory;
use cil_known::spelled::spelled;
use cil_known::{Known, Sections};
use cil_macros::{Instances, Namespaces};
use cil_mls::{Named, Orders};
use cil_names::Entry;
use cil_ranges::{
    CategorySpace as Categories, Sensitivities, inverse_of, members, place_at, standing_of,
};
use cil_sets::Numbers;
use cil_syntax::Kind;
use std::alloc::Global;

/// The aliases of categories, in byte order of their names, where these are the orders: of 1,024 categories at most. It costs n log n
/// steps for n names. Errors: out of memory, which is also the answer where aliases are not sound, or where two have one name: there are
/// none of these.
pub fn category_aliases(
    alloc: Global,
    instances: &Instances,
    known: &Known,
    sections: &Sections,
    orders: &Orders,
) -> Result<Vec<Named>, NoMemory>
    requires namespaces { known.now.lookup.namespaces.now ≡ namespaces_in instances.now }
    requires table { IsTableOf (map (row_in known.now) (items_in instances.now)) known.now.words.now }
    requires known { IsKnown known.now (items_in instances.now) (names_of sections.now) }
    requires apart { AreApart known.now.lookup.names.now (enabled_in known.now) known.now.numbers.now }
    requires orders { AreOrders (items_in instances.now) (enabled_in known.now) sections.now.sensitivities.items sections.now.categories.items orders.now }
    ensures few { IfOk result (λ aliases. length orders.now.categories.items ≤ 1024) }
    ensures aliases { IfOk result (λ aliases. (o : AreOrders (items_in instances.now) (enabled_in known.now) sections.now.sensitivities.items sections.now.categories.items orders.now)
        → Lists named_cmp (IsAliasRow (items_in instances.now) (enabled_in known.now) kinds.CategoryAlias kinds.Category o.of_categories.row) aliases.items) }
{
    let standing = standing_for_categories(alloc, instances, known, sections)?;
    let order = orders.categories.as_slice();
    let count = sections.categories.len();
    let kind = Kind::CategoryAlias;
    let aliases = aliases_of(alloc, known, kind, standing.as_slice(), order, count)?;
    Ok(aliases)
}

/// The same of sensitivities: there are 256 at most.
pub fn sensitivity_aliases(
    alloc: Global,
    instances: &Instances,
    known: &Known,
    sections: &Sections,
    orders: &Orders,
) -> Result<Vec<Named>, NoMemory>
    requires namespaces { known.now.lookup.namespaces.now ≡ namespaces_in instances.now }
    requires table { IsTableOf (map (row_in known.now) (items_in instances.now)) known.now.words.now }
    requires known { IsKnown known.now (items_in instances.now) (names_of sections.now) }
    requires apart { AreApart known.now.lookup.names.now (enabled_in known.now) known.now.numbers.now }
    requires orders { AreOrders (items_in instances.now) (enabled_in known.now) sections.now.sensitivities.items sections.now.categories.items orders.now }
    ensures few { IfOk result (λ aliases. length orders.now.sensitivities.items ≤ 256) }
    ensures aliases { IfOk result (λ aliases. (o : AreOrders (items_in instances.now) (enabled_in known.now) sections.now.sensitivities.items sections.now.categories.items orders.now)
        → Lists named_cmp (IsAliasRow (items_in instances.now) (enabled_in known.now) kinds.SensitivityAlias kinds.Sensitivity o.of_sensitivities.row) aliases.items) }
{
    let standing = standing_for_sensitivities(alloc, instances, known, sections)?;
    let order = orders.sensitivities.as_slice();
    let count = sections.sensitivities.len();
    let kind = Kind::SensitivityAlias;
    let aliases = aliases_of(alloc, known, kind, standing.as_slice(), order, count)?;
    Ok(aliases)
}

/// For each declared name the numbers of the categories for which it stands. Error: out of memory.
fn standing_for_categories(
    alloc: Global,
    instances: &Instances,
    known: &Known,
    sections: &Sections,
) -> Result<Vec<Numbers>, NoMemory>
    requires namespaces { known.now.lookup.namespaces.now ≡ namespaces_in instances.now }
    requires table { IsTableOf (map (row_in known.now) (items_in instances.now)) known.now.words.now }
    requires known { IsKnown known.now (items_in instances.now) (names_of sections.now) }
    requires apart { AreApart known.now.lookup.names.now (enabled_in known.now) known.now.numbers.now }
    ensures { IfOk result (λ sets. AreItems known.now (items_in instances.now) (names_of sections.now) kinds.Category sections.now.categories.items sets.items) }
{
    let names = sections.categories.as_slice();
    let Ok(members) = members::<Categories>(alloc, instances, known, names) else {
        return Err(NoMemory);
    };
    let standing = standing_of(alloc, members.held(), names.len())?;
    Ok(standing)
}

/// The same of sensitivities.
fn standing_for_sensitivities(
    alloc: Global,
    instances: &Instances,
    known: &Known,
    sections: &Sections,
) -> Result<Vec<Numbers>, NoMemory>
    requires namespaces { known.now.lookup.namespaces.now ≡ namespaces_in instances.now }
    requires table { IsTableOf (map (row_in known.now) (items_in instances.now)) known.now.words.now }
    requires known { IsKnown known.now (items_in instances.now) (names_of sections.now) }
    requires apart { AreApart known.now.lookup.names.now (enabled_in known.now) known.now.numbers.now }
    ensures { IfOk result (λ sets. AreItems known.now (items_in instances.now) (names_of sections.now) kinds.Sensitivity sections.now.sensitivities.items sets.items) }
{
    let names = sections.sensitivities.as_slice();
    let Ok(members) = members::<Sensitivities>(alloc, instances, known, names) else {
        return Err(NoMemory);
    };
    let standing = standing_of(alloc, members.held(), names.len())?;
    Ok(standing)
}

/// The aliases of this kind, in byte order of their names, where declared names stand for these numbers, which are below a count and
/// have this order. Errors: out of memory, which is also the answer where two aliases have one name.
fn aliases_of(
    alloc: Global,
    known: &Known,
    kind: Kind,
    standing: &[Numbers],
    order: &[usize],
    count: usize,
) -> Result<Vec<Named>, NoMemory>
    requires ordered { AreOrdered known.now.lookup.namespaces.now known.now.lookup.names.now }
    requires within { All (λ n. n < count) order.now }
    requires once { AreOnce order.now }
    requires few { length order.now ≤ 1024 }
    ensures { IfOk result (λ aliases. ListsAliases known.now kind standing.now order.now aliases.items) }
{
    let places = inverse_of(alloc, order, count)?;
    let unsorted = unsorted(alloc, known, kind, standing, places.as_slice())?;
    let aliases = by_name(unsorted)?;
    Ok(aliases)
}

/// The same, in the order of the declared names, where numbers have these places.
fn unsorted(
    alloc: Global,
    known: &Known,
    kind: Kind,
    standing: &[Numbers],
    places: &[usize],
) -> Result<Vec<Named>, NoMemory>
    requires { AreOrdered known.now.lookup.namespaces.now known.now.lookup.names.now }
    ensures { IfOk result (λ aliases. AreAliasesBelow known.now kind standing.now places.now (length known.now.lookup.names.now) aliases.items) }
{
    let mut aliases = Vec::new(alloc);
    for d in 0..known.lookup.names.entries().len() {
        push_at(alloc, &mut aliases, known, kind, standing, places, d)?;
    }
    Ok(aliases)
}

/// Adds what one declared name says, if it is such an alias.
fn push_at(
    alloc: Global,
    aliases: &mut Vec<Named>,
    known: &Known,
    kind: Kind,
    standing: &[Numbers],
    places: &[usize],
    d: usize,
) -> Result<(), NoMemory>
    requires { AreOrdered known.now.lookup.namespaces.now known.now.lookup.names.now }
    ensures { OnOk result ((a : ANamed) → Contains aliases.new.items a ↔ (Contains aliases.old.items a ⊎ IsEntryAlias known.now kind standing.now places.now d a)) }
{
    let Some(entry) = known.lookup.names.entries().get(d) else {
        return Ok(());
    };
    if !entry.is_declared_as(kind, known.lookup.enabled) {
        return Ok(());
    }
    let Some(numbers) = standing.get(d) else {
        return Ok(());
    };
    push_all(
        alloc,
        aliases,
        known.lookup.namespaces,
        entry,
        numbers,
        places,
    )?;
    Ok(())
}

/// Adds the name of an alias with the place of each of these numbers.
fn push_all(
    alloc: Global,
    aliases: &mut Vec<Named>,
    namespaces: &Namespaces,
    entry: &Entry,
    numbers: &Numbers,
    places: &[usize],
) -> Result<(), NoMemory>
    requires { entry.now.space ≤ length namespaces.now }
    ensures { OnOk result (aliases.new.items ≡ aliases.old.items ++ map (alias_to places.now (spelled_of namespaces.now entry.now)) numbers.now) }
{
    let all = numbers.to_vec(alloc)?;
    for number in all.as_slice() {
        let name = spelled(alloc, namespaces, entry.space, entry.name.as_slice())?;
        aliases.push(Named {
            name,
            place: place_at(places, *number),
        })?;
    }
    Ok(())
}

/// These in byte order of their names. Error: where two have one name, as no aliases of a policy have, it answers out of memory.
fn by_name(aliases: Vec<Named>) -> Result<Vec<Named>, NoMemory>
    ensures same { IfOk result (λ sorted. IsPermutation aliases.items sorted.items) }
    ensures rising { IfOk result (λ sorted. IsStrictlySortedBy named_cmp sorted.items) }
{
    let sorted = sorted_by_name(aliases);
    if !rise(sorted.as_slice()) {
        return Err(NoMemory);
    }
    Ok(sorted)
}

/// These sorted by their names.
fn sorted_by_name(mut aliases: Vec<Named>) -> Vec<Named>
    ensures { IsPermutation aliases.items result.items }
{
    aliases.sort_unstable_by(|a, b| a.name.as_slice().cmp(b.name.as_slice()));
    aliases
}

/// Whether names rise in byte order.
fn rise(aliases: &[Named]) -> bool
    ensures { IsTrue result ↔ IsStrictlySortedBy named_cmp aliases.now }
{
    aliases.is_sorted_by(|a, b| a.name.as_slice().cmp(b.name.as_slice()).is_lt())
}
