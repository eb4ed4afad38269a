//! The aliases of types: their names, with the types for which they stand.

ghost use Rattle.std.specs.Prelude.{◌≡◌, ◌↔◌, ◌⊎◌, ◌≤◌, ◌++◌, ℕ, Contains, IfOk, List, OnOk, length, map};
ghost use Rattle.cil_base.specs.Lists.{Lists};
ghost use Rattle.cil_syntax.specs.declared.kind.Kind as kinds;
ghost use Rattle.cil_syntax.specs.declared.kind.Kind.TheVariants as variants;
ghost use Rattle.cil_macros.specs.Item.{Item};
ghost use Rattle.cil_names.specs.Entries.{AreOrdered};
ghost use Rattle.cil_known.specs.Known.{HaveMembers, IsKnown, enabled_in};
ghost use Rattle.cil_known.specs.Numbers.{spelled_of};
ghost use Rattle.cil_tables.specs.declared.tables.Alias.{Alias as AnAlias};
ghost use Rattle.cil_tables.specs.AliasRows.{IsAliasAt, alias_to, AreAliasesAt};
ghost use Rattle.cil_tables.specs.Aliases.{IsAlias};
ghost use Rattle.cil_tables.specs.Table.{alias_cmp};

use crate::tables::Alias;
use cil_base::NoMemory;
use cil_blocks::Namespaces;
use cil_known::Known;
use cil_known::spelled::spelled;
use cil_names::Entry;
use cil_sets::Numbers;
use cil_syntax::Kind;
use std::alloc::Global;

/// The aliases of types, by name, where these are the types of each declared alias. It costs a step for each declared name, and a sort
/// of the aliases. Error: out of memory.
pub(crate) fn aliases_of(
    alloc: Global,
    known: &Known,
    types: &[Numbers],
) -> Result<Vec<Alias>, NoMemory>
    requires { AreOrdered known.now.lookup.namespaces.now known.now.lookup.names.now }
    ensures { IfOk result (λ aliases. (xs : List Item) (names : kinds.Kind → List (List ℕ)) → IsKnown known.now xs names → HaveMembers known.now xs names variants.Type_ types.now
        → Lists alias_cmp (IsAlias xs (enabled_in known.now) (names variants.Type_)) aliases.items) }
{
    let mut aliases = unsorted(alloc, known, types)?;
    aliases.sort_unstable();
    aliases.dedup();
    Ok(aliases)
}

/// The same, in the order of the declared names.
fn unsorted(alloc: Global, known: &Known, types: &[Numbers]) -> Result<Vec<Alias>, NoMemory>
    requires { AreOrdered known.now.lookup.namespaces.now known.now.lookup.names.now }
    ensures { IfOk result (λ aliases. AreAliasesAt known.now types.now (length known.now.lookup.names.now) aliases.items) }
{
    let mut aliases = Vec::new(alloc);
    for d in 0..known.lookup.names.entries().len() {
        push_at(alloc, &mut aliases, known, types, d)?;
    }
    Ok(aliases)
}

/// Adds what one declared name says, if it is an alias.
fn push_at(
    alloc: Global,
    aliases: &mut Vec<Alias>,
    known: &Known,
    types: &[Numbers],
    d: usize,
) -> Result<(), NoMemory>
    requires { AreOrdered known.now.lookup.namespaces.now known.now.lookup.names.now }
    ensures { OnOk result ((a : AnAlias) → Contains aliases.new.items a ↔ (Contains aliases.old.items a ⊎ IsAliasAt known.now types.now d a)) }
{
    let Some(entry) = known.lookup.names.entries().get(d) else {
        return Ok(());
    };
    if !entry.is_declared_as(Kind::TypeAlias, known.lookup.enabled) {
        return Ok(());
    }
    let Some(targets) = types.get(d) else {
        return Ok(());
    };
    push_all(alloc, aliases, known.lookup.namespaces, entry, targets)?;
    Ok(())
}

/// Adds the name of an alias with each of these types.
fn push_all(
    alloc: Global,
    aliases: &mut Vec<Alias>,
    namespaces: &Namespaces,
    entry: &Entry,
    targets: &Numbers,
) -> Result<(), NoMemory>
    requires { entry.now.space ≤ length namespaces.now }
    ensures { OnOk result (aliases.new.items ≡ aliases.old.items ++ map (alias_to (spelled_of namespaces.now entry.now)) targets.now) }
{
    let all = targets.to_vec(alloc)?;
    for target in all.as_slice() {
        let name = spelled(alloc, namespaces, entry.space, entry.name.as_slice())?;
        aliases.push(Alias {
            name,
            target: *target,
        })?;
    }
    Ok(())
}
