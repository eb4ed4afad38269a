//! The table of levels of a policy.

ghost use Rattle.std.specs.Prelude.{◌≡◌, IfOk, map};
ghost use Rattle.cil_faults.specs.declared.fault.Fault.{Fault};
ghost use Rattle.cil_macros.specs.Items.{items_in, namespaces_in};
ghost use Rattle.cil_names.specs.Rows.{IsTableOf};
ghost use Rattle.cil_known.specs.Known.{IsKnown, enabled_in, row_in};
ghost use Rattle.cil_known.specs.Numbers.{AreApart, names_of};
ghost use Rattle.cil_mls.specs.OrderFaults.{AreOrders};
ghost use Rattle.cil_ranges.specs.Levels.{Ground};
ghost use Rattle.cil_ranges.specs.Steps.{AreLevels, IsGround, LevelFault};
ghost use Rattle.cil_labels.specs.Parts.{AreApart as HaveOnePlace, table_of};
ghost use Rattle.cil_level_rows.specs.Parts.{AreAliasRows, AreNamesInOrder};
ghost use Rattle.cil_level_rows.specs.Rows.{IsLevelTableOver};

use crate::aliases::{category_aliases, sensitivity_aliases};
use crate::names::in_order;
use crate::users::range_rows;
use crate::words::sets_have_words;
use cil_base::{Bytes, NoMemory};
use cil_known::{Known, Sections};
use cil_labels::{LabelParts, Labels};
use cil_macros::Instances;
use cil_mls::{Named, Orders};
use cil_ranges::Levels;
use std::alloc::Global;

/// The names of the items of both kinds, in their orders.
#[derive(Drop)]
struct NameRows {
    /// The sensitivities.
    sensitivities: Vec<Bytes>,
    /// The categories.
    categories: Vec<Bytes>,
}

/// The aliases of both kinds, in byte order of their names.
#[derive(Drop)]
struct AliasRows {
    /// Those of sensitivities.
    sensitivities: Vec<Named>,
    /// Those of categories.
    categories: Vec<Named>,
}

/// What tables hold of the levels of a policy with these orders and levels. It costs n log n steps for n names.
///
/// Errors: out of memory, which is also the answer where aliases are not sound, where two aliases have one name, or where levels are on
/// and a user has no range: there are none of these.
pub fn level_rows(
    alloc: Global,
    instances: &Instances,
    known: &Known,
    sections: &Sections,
    orders: &Orders,
    levels: Levels,
) -> Result<Labels, NoMemory>
    requires namespaces { known.now.lookup.namespaces.now ≡ namespaces_in instances.now }
    requires table { IsTableOf (map (row_in known.now) (items_in instances.now)) known.now.words.now }
    requires known { IsKnown known.now (items_in instances.now) (names_of sections.now) }
    requires numbers { AreApart known.now.lookup.names.now (enabled_in known.now) known.now.numbers.now }
    requires orders { AreOrders (items_in instances.now) (enabled_in known.now) sections.now.sensitivities.items sections.now.categories.items orders.now }
    ensures { IfOk result (λ t. (g : Ground) → IsGround (items_in instances.now) (enabled_in known.now) g → AreLevels known.now g levels → ((f : Fault) → LevelFault (enabled_in known.now) g f → ⊥)
        → IsLevelTableOver (items_in instances.now) (enabled_in known.now) g sections.now.users.items t) }
{
    let parts = label_parts(alloc, instances, known, sections, orders, levels)?;
    let Some(labels) = Labels::of(alloc, parts)? else {
        // Each name that can be written stands for one place.
        unreachable!()
    };
    Ok(labels)
}

/// The parts of the table. Errors: those of `level_rows`.
fn label_parts(
    alloc: Global,
    instances: &Instances,
    known: &Known,
    sections: &Sections,
    orders: &Orders,
    levels: Levels,
) -> Result<LabelParts, NoMemory>
    requires namespaces { known.now.lookup.namespaces.now ≡ namespaces_in instances.now }
    requires table { IsTableOf (map (row_in known.now) (items_in instances.now)) known.now.words.now }
    requires known { IsKnown known.now (items_in instances.now) (names_of sections.now) }
    requires numbers { AreApart known.now.lookup.names.now (enabled_in known.now) known.now.numbers.now }
    requires orders { AreOrders (items_in instances.now) (enabled_in known.now) sections.now.sensitivities.items sections.now.categories.items orders.now }
    ensures apart { IfOk result (λ parts. HaveOnePlace (table_of parts)) }
    ensures table { IfOk result (λ parts. (g : Ground) → IsGround (items_in instances.now) (enabled_in known.now) g → AreLevels known.now g levels
        → IsLevelTableOver (items_in instances.now) (enabled_in known.now) g sections.now.users.items (table_of parts)) }
{
    let names = name_rows(alloc, sections, orders)?;
    let aliases = alias_rows(alloc, instances, known, sections, orders)?;
    let users = range_rows(
        alloc,
        known,
        levels.users.as_slice(),
        sections.users.len(),
        orders.are_on,
    )?;
    // What is known of sets: they have words.
    sets_have_words(levels.permitted.as_slice());
    Ok(LabelParts {
        are_on: orders.are_on,
        categories: names.categories,
        category_aliases: aliases.categories,
        sensitivities: names.sensitivities,
        permitted: levels.permitted,
        sensitivity_aliases: aliases.sensitivities,
        users,
    })
}

/// The names of the items of both kinds, in their orders. Error: out of memory.
fn name_rows(alloc: Global, sections: &Sections, orders: &Orders) -> Result<NameRows, NoMemory>
    ensures { IfOk result (AreNamesInOrder sections.now orders.now) }
{
    let sensitivities = in_order(
        alloc,
        sections.sensitivities.as_slice(),
        orders.sensitivities.as_slice(),
    )?;
    let categories = in_order(
        alloc,
        sections.categories.as_slice(),
        orders.categories.as_slice(),
    )?;
    Ok(NameRows {
        sensitivities,
        categories,
    })
}

/// The aliases of both kinds. Errors: out of memory, which is also the answer where they are not sound, or where two have one name.
fn alias_rows(
    alloc: Global,
    instances: &Instances,
    known: &Known,
    sections: &Sections,
    orders: &Orders,
) -> Result<AliasRows, NoMemory>
    requires namespaces { known.now.lookup.namespaces.now ≡ namespaces_in instances.now }
    requires table { IsTableOf (map (row_in known.now) (items_in instances.now)) known.now.words.now }
    requires known { IsKnown known.now (items_in instances.now) (names_of sections.now) }
    requires apart { AreApart known.now.lookup.names.now (enabled_in known.now) known.now.numbers.now }
    requires orders { AreOrders (items_in instances.now) (enabled_in known.now) sections.now.sensitivities.items sections.now.categories.items orders.now }
    ensures { IfOk result (λ aliases. (o : AreOrders (items_in instances.now) (enabled_in known.now) sections.now.sensitivities.items sections.now.categories.items orders.now)
        → AreAliasRows (items_in instances.now) (enabled_in known.now) o.of_sensitivities.row o.of_categories.row aliases) }
{
    let sensitivities = sensitivity_aliases(alloc, instances, known, sections, orders)?;
    let categories = category_aliases(alloc, instances, known, sections, orders)?;
    Ok(AliasRows {
        sensitivities,
        categories,
    })
}
